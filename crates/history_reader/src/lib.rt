// Reading a history from text, by the names of its description's text.
#![tactic(auto)]

mod histories;

ghost use Rattle.std.specs.Prelude.{◌≡◌, length};
ghost use Rattle.basics.specs.Refusals.{Numbered};
ghost use Rattle.history_reader.specs.Histories.{read_history, values_left, history_reply_of, history_replied, ActionsFilled};

use basics::{Reason, Refusal};
use description_reader::descriptions;

// Reads a history's text by the names of its description's text, and leaves its values; on a refusal the buffer stays as it was.
pub fn read_history(description: &[u8], text: &[u8], values: &mut [u8]) -> Result<(), Refusal>
    ensures answers { history_reply_of result
        ≡ history_replied (read_history description.now text.now (length values.old)) }
    ensures leaves { values.new
        ≡ values_left (read_history description.now text.now (length values.old))
        values.old }
    ensures filled { ActionsFilled description.now result values.new }
    ensures numbered { Numbered result }
{
    let declared = descriptions::read_alone(description)?;
    let room = values.len();
    if room != histories::atom_count(&declared) {
        return Err(Refusal {
            reason: Reason::WrongCount,
            place: room,
        });
    }
    if 65535 < text.len() {
        return Err(Refusal {
            reason: Reason::LongText,
            place: 0,
        });
    }
    let mut places = [0; 1024];
    let found = &mut places[..room];
    histories::read(description, text, &declared, found)?;
    values.copy_from_slice(found);
    Ok(())
}
