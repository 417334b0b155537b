// The names of fluents and actions as they are shown to an editor: parts of the description text. Behind the horizon's line each line
// declares one name, the fluents first.
#![tactic(auto)]

ghost use Rattle.std.specs.Prelude.{◌≡◌};
ghost use Rattle.text_forms.specs.Places.{LiesAt};
ghost use Rattle.shown_names.specs.Shown.{shown_fluent, shown_action, shown_fluent_start, shown_action_start};

use description_reader::descriptions;
use text::lines;

// The part of the description text where a fluent was declared; empty for a number that nothing declares, and in a text that is refused.
pub fn fluent_name(text: &[u8], fluent: usize) -> &[u8]
    ensures answers { result.now ≡ shown_fluent text.now fluent }
    ensures lies { LiesAt (shown_fluent_start text.now fluent) text.entry result }
{
    match descriptions::read_alone(text) {
        Ok(declared) if fluent < declared.fluents => lines::value_of_line(text, fluent + 1),
        Ok(_) => lines::no_part(text),
        Err(_) => lines::no_part(text),
    }
}

// The same for an action.
pub fn action_name(text: &[u8], action: usize) -> &[u8]
    ensures answers { result.now ≡ shown_action text.now action }
    ensures lies { LiesAt (shown_action_start text.now action) text.entry result }
{
    match descriptions::read_alone(text) {
        Ok(declared) => {
            let actions = declared.names.count - declared.fluents;
            if action < actions {
                lines::value_of_line(text, declared.fluents + action + 1)
            } else {
                lines::no_part(text)
            }
        }
        Err(_) => lines::no_part(text),
    }
}
