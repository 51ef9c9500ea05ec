// Lines of acts, appended to a transcript.
ghost use Rattle.std.specs.Prelude.{◌<◌, ◌≤◌, length, take};
ghost use Rattle.acts.specs.Lines.{accepted_line, refused_line};
ghost use Rattle.desk.specs.Steps.{Appended};

use acts::line::{ACT_LINE, put_accepted, put_refused};
use std::alloc::AllocError;

// The front of a text.
pub(crate) fn append_front(
    transcript: &mut Vec<u8>,
    text: &[u8],
    written: usize,
) -> Result<(), AllocError>
    requires { written ≤ length text.now }
    ensures { Appended transcript.old.items transcript.new.items (take written text.now) result }
{
    transcript.extend_from_slice(&text[0..written])
}

// The line of an accepted act.
pub(crate) fn append_accepted(transcript: &mut Vec<u8>, number: usize) -> Result<(), AllocError>
    ensures { Appended transcript.old.items transcript.new.items (accepted_line number) result }
{
    let mut line = [0u8; ACT_LINE];
    let written = put_accepted(&mut line, number);
    append_front(transcript, &line, written)
}

// The line of a refused act, told by the number of its refusal, whichever enum that is of.
pub(crate) fn append_refused(
    transcript: &mut Vec<u8>,
    number: usize,
    refusal: u8,
) -> Result<(), AllocError>
    requires { refusal < 100 }
    ensures { Appended transcript.old.items transcript.new.items (refused_line number refusal) result }
{
    let mut line = [0u8; ACT_LINE];
    let written = put_refused(&mut line, number, refusal);
    append_front(transcript, &line, written)
}
