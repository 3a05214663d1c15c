ghost use Rattle.line_words.specs.Read.{Reads};
ghost use Rattle.decoding.specs.Line.{line_says, report_said};

use line_words::fault::ReadFault;
use line_words::read::read_end;
use numeral::hex::hex_bytes;
use std::alloc::Global;
use text::words::Words;

/// The bytes of the report that a line holds, `None` where it has no word, or its fault.
pub fn read_report(heap: Global, line: &[u8]) -> Result<Option<Vec<u8>>, ReadFault>
    ensures { Reads report_said result (line_says line.now) }
{
    let mut words = Words::of(line);
    // No word at all: an empty line, or a comment.
    let Some(word) = words.next() else {
        return Ok(None);
    };
    let bytes = hex_bytes(heap, word)?;
    read_end(&mut words)?;
    Ok(Some(bytes))
}
