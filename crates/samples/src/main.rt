// Runs all sample files in one run: standard input has each behind its length in two bytes, and what the console would print of each
// is printed in order.
#![tactic(auto)]

ghost use Rattle.std.specs.Prelude.{◌<◌, length, IfSome};

use jobrun::run::run_file;
use std::io;
use std::io::{Read, Write};

// So many files are run at most; what lies behind them is left.
const MOST: usize = 100;

// The first file of an input and what lies behind it; none where the input holds no whole file.
fn first(input: &[u8]) -> Option<(&[u8], &[u8])>
    ensures { IfSome result (λ x. length x.1.now < length input.now) }
{
    let [high, low, rest @ ..] = input else {
        return None;
    };
    rest.split_at_checked(usize::from(u16::from_be_bytes([*high, *low])))
}

fn main(rt: HostRuntime) -> io::Result<()> {
    let mut all = Vec::new(rt.alloc());
    rt.stdin().read_to_end(&mut all)?;
    let mut input = all.as_slice();
    for _ in 0..MOST {
        let Some((file, rest)) = first(input) else {
            break;
        };
        let printed = run_file(rt.alloc(), file)?;
        rt.stdout().write_all(&printed)?;
        input = rest;
    }
    Ok(())
}
