ghost use Rattle.std.specs.Prelude.{◌≡◌, ◌∷◌, [], OnOk};
ghost use Rattle.plan_reports.specs.Lines.{lines_text};
ghost use Rattle.plan_session.specs.Printing.{Prints};

use crate::fault::PrintFault;
use crate::report::Report;
use plan_ports::{Sink, put_all};
use plan_reports::Line;

/// Puts the text in the buffer into the sink, and empties the buffer.
pub fn print<K: Sink>(buffer: &mut Vec<u8>, out: &mut K) -> Result<(), PrintFault>
    ensures text { Prints result buffer.old.items (K.state out.old) (K.state out.new) }
    ensures emptied { OnOk result (buffer.new.items ≡ []) }
{
    put_all(out, buffer)?;
    buffer.clear();
    Ok(())
}

/// Prints a line by way of an empty buffer.
pub fn print_line<K: Sink>(
    report: &Report<'_>,
    line: &Line,
    buffer: &mut Vec<u8>,
    out: &mut K,
) -> Result<(), PrintFault>
    requires { buffer.old.items ≡ [] }
    ensures text { let text = lines_text report.now.schema.now report.now.rules.now (line.now ∷ []) in
        Prints result text (K.state out.old) (K.state out.new) }
    ensures emptied { OnOk result (buffer.new.items ≡ []) }
{
    report.line(line, buffer)?;
    print(buffer, out)
}
