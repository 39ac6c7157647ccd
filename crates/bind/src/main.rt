// The program `bind` (01, sheets and the program bind): two sheets on standard input, how the call binds on standard output.
#![tactic(auto)]

use sheets::{OUTPUT, bind_read};

// One byte past the longest input that is taken, so that a longer one is seen to be too long.
const INPUT: usize = 16385;

fn main() {
    let mut input = [0u8; INPUT];
    let n = io::read_full(0, &mut input);
    let mut out = [0u8; OUTPUT];
    if !io::write_all(1, bind_read(&input, n, &mut out)) {
        io::write_all(2, b"bind: the output could not be written\n");
    }
}
