//! A line of the output.
ghost use Rattle.std.specs.Prelude.{◌≡◌, [], ◌∷◌, ◌++◌, OnOk};
ghost use Rattle.printing.specs.Said.{number_shown, detail_shown};
ghost use Rattle.printing.specs.Texts.{state_letter, line_text};
ghost use Rattle.printing.specs.Laws.{RecordsReadBack};

use crate::complaint::Complaint;
use crate::detail::Detail;
use crate::fields::{write_detail, write_number};
use std::alloc::AllocError;

/// The letter of a state, unmounted, idle, open or dark, between two tabs. A question mark stands for any other letter.
// Kept: the state is a letter that is matched by literals where the line is printed, and stored nowhere, as the project's rules want it.
fn state_field(state: char) -> &'static [u8]
    ensures { result.now ≡ 9 ∷ state_letter state ∷ 9 ∷ [] }
{
    match state {
        'u' => b"\tu\t",
        'i' => b"\ti\t",
        'o' => b"\to\t",
        'd' => b"\td\t",
        _ => b"\t?\t",
    }
}

/// Writes a line of the output behind what is there: the number of the line, the letter of the state after it, the answer and
/// the detail, with tabs between them, and a newline.
#[tactic(auto, using(crate::proofs::Back::printed_reads_back))]
pub fn write_line(
    out: &mut Vec<u8>,
    number: u64,
    state: char,
    answer: u32,
    detail: &Detail,
) -> Result<(), AllocError>
    ensures text { OnOk result (out.new.items ≡ out.old.items ++ line_text number state answer detail.now) }
    ensures law { RecordsReadBack }
{
    write_number(out, number)?;
    out.extend_from_slice(state_field(state))?;
    write_number(out, u64::from(answer))?;
    out.extend_from_slice(b"\t")?;
    write_detail(out, detail)?;
    out.extend_from_slice(b"\n")
}

/// Writes the line of what was said: a detail with the answer 0, or the number of a complaint with a dash.
#[tactic(auto, using(crate::proofs::Back::printed_reads_back))]
pub fn write_said(
    out: &mut Vec<u8>,
    number: u64,
    state: char,
    said: &Result<Detail, Complaint>,
) -> Result<(), AllocError>
    ensures text { OnOk result (out.new.items ≡ out.old.items ++ line_text number state (number_shown said.now) (detail_shown said.now)) }
    ensures law { RecordsReadBack }
{
    match said {
        Ok(detail) => write_line(out, number, state, 0, detail),
        Err(complaint) => write_line(out, number, state, complaint.number(), &Detail::Nothing),
    }
}
