// The record of an act: a letter, a part, a sign, and zeros.
ghost use Rattle.std.specs.Prelude.{◌≡◌, MatchOption};
ghost use Rattle.records.specs.Records.{Names, GoodAct, act_named, act_from};

use blocks::bytes::zeros;
use contents::act::Act;

// The act that a letter and two places make; none where the letter is unknown or a place that it does not use is not zero.
fn named(letter: u8, part: u8, sign: u8) -> Option<Act>
    ensures { MatchOption result (Names (act_named letter part sign) letter part sign → ⊥) (λ act. Names act letter part sign × (act ≡ act_named letter part sign)) }
{
    let p = usize::from(part);
    let s = usize::from(sign);
    match letter as char {
        'F' => Some(Act::Fix(p, s)),
        'B' => Some(Act::Bar(p, s)),
        'R' if sign == 0 => Some(Act::Require(p)),
        'L' if sign == 0 => Some(Act::LeaveOut(p)),
        'U' if part == 0 && sign == 0 => Some(Act::Undo),
        'Q' if part == 0 && sign == 0 => Some(Act::Query),
        _ => None,
    }
}

// The act that a record holds, if its bytes are an act's record.
pub fn act_of(bytes: &[u8]) -> Option<Act>
    ensures { MatchOption result (GoodAct bytes.now → ⊥) (λ act. GoodAct bytes.now × (act ≡ act_from bytes.now)) }
{
    let [letter, part, sign, rest @ ..] = bytes else {
        return None;
    };
    if bytes.len() != 30 || !zeros(rest, 0, 27) {
        return None;
    }
    named(*letter, *part, *sign)
}
