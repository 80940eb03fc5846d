//! The lines of rows.
ghost use Rattle.std.specs.Prelude.{◌≡◌, length};
ghost use Rattle.lab_lines.specs.Limits.{IsActor};
ghost use Rattle.lab_report.specs.Causes.{Gives};
ghost use Rattle.lab_report.specs.Reading.{row_after_front, row_of_line};

use crate::answers::{answer_at, state_at};
use crate::error::ReportWhy;
use crate::numbers::number_or_dash_at;
use crate::text::push_front;
use crate::words::{expect_words, feed_of, space_of};
use lab_lines::{Request, Row, Script};

/// The row of what is left of a line after the front of a row that is about this request.
#[tactic(auto, unfolding(crate::specs::Reading::row_after_front))]
fn row_after_front(request: Request, rest: &[u8]) -> Result<Row, ReportWhy>
    ensures { Gives (λ r. r) result (row_after_front request rest.now) }
{
    let (answer, rest) = answer_at(rest)?;
    let rest = space_of(rest)?;
    let (state, rest) = state_at(rest)?;
    let rest = space_of(rest)?;
    let (seen, rest) = number_or_dash_at(rest)?;
    feed_of(rest)?;
    Ok(Row {
        phase: request.phase,
        actor: request.actor,
        op: request.op,
        answer,
        state,
        seen,
    })
}

/// The row of a line that is about this request. Its front is printed in a text whose memory is used again from row to row.
#[tactic(auto, unfolding(crate::specs::Reading::row_of_line))]
pub fn row_at(
    front: &mut String,
    script: &Script,
    request: Request,
    line: &[u8],
) -> Result<Row, ReportWhy>
    requires { IsActor (length script.now.clients) (length script.now.readers) request.actor }
    ensures { Gives (λ r. r) result (row_of_line script.now request line.now) }
{
    front.clear();
    push_front(front, script, request)?;
    let rest = expect_words(front.as_bytes(), line)?;
    row_after_front(request, rest)
}
