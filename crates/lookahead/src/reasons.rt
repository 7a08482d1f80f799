// Rows that are entered, and the reasons of a failure.
ghost use Rattle.std.specs.Prelude.{◌≡◌, ◌<◌};
ghost use Rattle.spec.specs.Table.{most_rows};
ghost use Rattle.lookahead.specs.Steps.{blaming, shorting, joining, seeing, Entering, Settled};

use task::terms::noted;

// Why a search fails: the slots whose bindings stood in the way, and whether more rows might have helped.
#[derive(Clone, Copy)]
pub struct Reasons {
    pub slots: u64,
    pub short: bool,
}

// Sets of rows, those in use and those that may be taken; and how many more may be.
#[derive(Clone, Copy)]
pub struct Rows {
    pub used: u64,
    pub may: u64,
    pub left: usize,
}

// Of a row that is entered: whether it was in use, and the rows then.
#[derive(Clone, Copy)]
pub struct Entered {
    pub free: bool,
    pub rows: Rows,
}

// Why a row is not entered: it may be taken, but none are left; or it may not be taken.
#[derive(Clone, Copy)]
pub enum Barred {
    Short,
    Closed,
}

impl Rows {
    // A row in use is free; another costs one of those left, and is then in use.
    pub fn enters(self, row: u8) -> Result<Entered, Barred>
        requires { row < most_rows }
        ensures { Entering self row result }
    {
        let x = row as u32;
        let used = bits::add(self.used, x);
        if bits::holds(self.used, x) {
            return Ok(Entered {
                free: true,
                rows: Rows { used, ..self },
            });
        }
        if !bits::holds(self.may, x) {
            return Err(Barred::Closed);
        }
        if self.left == 0 {
            return Err(Barred::Short);
        }
        Ok(Entered {
            free: false,
            rows: Rows {
                used,
                left: self.left - 1,
                ..self
            },
        })
    }
}

impl Reasons {
    // One slot more to blame, if the term is one.
    pub fn blamed(self, x: u64) -> Reasons
        ensures { result ≡ blaming self x }
    {
        Reasons {
            slots: noted(self.slots, x),
            ..self
        }
    }

    // A row was refused. If it is an allowed one, none are left: with more, the target might do.
    pub fn shorted(self, barred: Barred) -> Reasons
        ensures { result ≡ shorting self barred }
    {
        match barred {
            Barred::Short => Reasons {
                short: true,
                ..self
            },
            Barred::Closed => self,
        }
    }

    // The reasons of both.
    pub fn joined(self, more: Reasons) -> Reasons
        ensures { result ≡ joining self more }
    {
        Reasons {
            slots: bits::join(self.slots, more.slots),
            short: self.short || more.short,
        }
    }

    // Reasons among a later use's own slots are none before it.
    pub fn seen(self, last: u8) -> Reasons
        ensures { result ≡ seeing self last }
    {
        if last == 0 {
            return self;
        }
        Reasons {
            slots: bits::low(self.slots),
            ..self
        }
    }

    // Whether no other target is to be tried, since each fails for the same reasons.
    // Want of rows is such a reason only if the guess took none: another target leaves no more of them.
    pub fn settled(self, new: u64, free: bool) -> bool
        ensures { Settled self new free result }
    {
        !bits::meets(self.slots, new) && (free || !self.short)
    }
}
