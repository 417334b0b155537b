// Which keys are allowed where, which lines have a list, and whether there is room for a law.
ghost use Rattle.std.specs.Prelude.{◌≡◌, min, ltb, length};
ghost use Rattle.text_forms.specs.Keys.{number_of_key};
ghost use Rattle.description_lines.specs.LineSteps.{law_due, allowed};
ghost use Rattle.description_reader.specs.Internal.{due_of, is_list_key, items_from, high_for};

use crate::states::{Due, ReaderState};
use text_forms::Key;

// A law, in full or short, or the end line.
fn is_law_or_end(key: Key) -> bool
    ensures { result ≡ allowed law_due (number_of_key key) }
{
    matches!(
        key,
        Key::Static
            | Key::Dynamic
            | Key::Default
            | Key::Inertial
            | Key::Causes
            | Key::Nonexecutable
            | Key::End
    )
}

// Whether a line has a list to be read: a law that is a list has none where there is no room for the law.
fn has_list(key: Key, room: bool) -> bool
    ensures { result ≡ is_list_key (number_of_key key) room }
{
    match key {
        Key::If | Key::After | Key::By => true,
        Key::Nonexecutable => room,
        _ => false,
    }
}

impl Due {
    // The keys that may stand where this is due.
    pub fn allows(self, key: Key) -> bool
        ensures { result ≡ allowed (due_of self) (number_of_key key) }
    {
        match self {
            Due::Horizon => key == Key::Horizon,
            Due::FirstFluent => key == Key::Fluent,
            Due::Fluent => key == Key::Fluent || key == Key::Action || is_law_or_end(key),
            Due::Action => key == Key::Action || is_law_or_end(key),
            Due::NewLaw => is_law_or_end(key),
            Due::If(_, _) => key == Key::If,
            Due::After(_) => key == Key::After,
            Due::By(_) => key == Key::By,
        }
    }

    // Where the items of a line's list begin: behind the end where the line has none to be read.
    #[tactic(auto, unfolding(crate::specs::Internal::items_from))]
    pub fn first_item(self, key: Key, list: &[u8], room: bool) -> usize
        ensures { result ≡ items_from (due_of self) (number_of_key key) room (length list.now) }
    {
        if !list.is_empty() && self.allows(key) && has_list(key, room) {
            return 0;
        }
        list.len() + 1
    }
}

impl ReaderState {
    // Whether there is a place for a new law, of at most 64 and of those lent.
    pub fn has_room(&self) -> bool
        ensures { result ≡ ltb self.now.count (min 64 self.now.lent) }
    {
        self.count < usize::min(64, self.lent)
    }

    // Up to which place the names of a line's list go: the fluents in an if-list, all names in the others.
    pub fn sort_end(&self, key: Key) -> usize
        ensures { result ≡ high_for (number_of_key key) self.now }
    {
        match key {
            Key::If => self.fluents,
            _ => self.names.count,
        }
    }
}
