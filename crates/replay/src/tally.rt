// How many cases were played, and how many of them differ.
// A case that was played: whether it ended as expected, how many cuts it has, and whether 16 refused some of them and 19 others.
#[derive(Clone, Copy, Debug, PartialEq, Eq)]
pub struct Played {
    pub same: bool,
    pub cuts: u64,
    pub repeat: bool,
}

impl Played {
    // A case with no cuts.
    pub fn single(same: bool) -> Self {
        Played {
            same,
            cuts: 0,
            repeat: false,
        }
    }
}

// How many cases, how many that differ, how many cuts in them, and how many that repeat an argument.
#[derive(Clone, Copy, Debug, PartialEq, Eq)]
pub struct Tally {
    pub played: u64,
    pub differ: u64,
    pub cuts: u64,
    pub repeats: u64,
}

impl Tally {
    pub fn new() -> Self {
        Tally {
            played: 0,
            differ: 0,
            cuts: 0,
            repeats: 0,
        }
    }

    pub fn add(self, case: Played) -> Self {
        Tally {
            played: self.played.wrapping_add(1),
            differ: self.differ.wrapping_add(u64::from(!case.same)),
            cuts: self.cuts.wrapping_add(case.cuts),
            repeats: self.repeats.wrapping_add(u64::from(case.repeat)),
        }
    }
}

pub fn summary(label: &[u8], tally: Tally) {
    io::write_all(1, label);
    io::print_decimal(1, tally.played);
    io::write_all(1, b" played, ");
    io::print_decimal(1, tally.differ);
    io::write_all(1, b" differ\n");
}

pub fn line(label: &[u8], n: u64) {
    io::write_all(1, label);
    io::print_decimal(1, n);
    io::write_all(1, b"\n");
}
