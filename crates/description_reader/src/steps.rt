// What each line of a description does to the reader's state.
ghost use Rattle.std.specs.Prelude.{◌≡◌, cond, List, [], ℕ, ◌<◌, min, ltb, take, drop, OnOk, Ok, Err};
ghost use Rattle.basics.specs.declared.Reason.TheVariants.{BadName, NoRoom};
ghost use Rattle.text_forms.specs.Keys.{number_of_key};
ghost use Rattle.text_forms.specs.Lists.{codes};
ghost use Rattle.text_forms.specs.Names.{is_new, literal};
ghost use Rattle.text_forms.specs.NamePlaces.{no_names, with_name, declares_name, joined};
ghost use Rattle.text.specs.Internal.{spelled};
ghost use Rattle.action_language.specs.Laws.{law_of};
ghost use Rattle.action_language.specs.declared.Kind.TheVariants.{Dynamic};
ghost use Rattle.line_values.specs.HorizonText.{horizon_of};
ghost use Rattle.description_lines.specs.LineSteps.{horizon_due, law_due, if_due, next, horizon_line, fluent_line, action_line};
ghost use Rattle.description_lines.specs.LineSteps.{whole, read_head, if_line, end_line};
ghost use Rattle.description_lines.specs.Descriptions.{blank};
ghost use Rattle.description_reader.specs.declared.states.Due as code;
ghost use Rattle.description_reader.specs.Internal.{due_of, draft_of, step_of, Keeps, value_in, read_or, codes_in, later_line, step_with};
ghost use Rattle.description_reader.specs.Internal.{NumberedReason};

use crate::codes::Codes;
use crate::states::{Due, Line, ReaderState};
use action_language::{Head, Kind, Law};
use basics::Reason;
use line_values::{horizons, law_forms};
use spelling;
use text::{bytes, names};
use text_forms::{Key, Name, Names};

impl<'a> Line<'a> {
    // A line's value.
    pub fn value(&self) -> &'a [u8]
        ensures { result.now ≡ value_in self.now }
    {
        bytes::part(self.text, self.place.start, self.place.length)
    }
}

impl ReaderState {
    // Nothing is read yet.
    #[tactic(auto, unfolding(text::specs::Internal::spelled))]
    pub fn begun(lent: usize) -> ReaderState
        ensures step { (text : List ℕ) → step_of text (Ok tt) result ≡ next horizon_due blank }
        ensures names { result.names ≡ no_names }
        ensures lent { result.lent ≡ lent }
    {
        let law = law_forms::new_law(Kind::Static, Head::Lit(0));
        let name = Name {
            start: 0,
            length: 0,
        };
        let names = Names {
            places: [name; 32],
            count: 0,
        };
        ReaderState {
            due: Some(Due::Horizon),
            horizon: 0,
            fluents: 0,
            names,
            laws: [law; 64],
            count: 0,
            lent,
        }
    }

    // The horizon: 1 to 30, without a leading zero.
    fn horizon_line(&mut self, line: &Line) -> Result<(), Reason>
        ensures step { step_of line.now.text.now result self.new
            ≡ horizon_line (draft_of line.now.text.now self.old) (horizon_of (value_in line.now)) }
        ensures keeps { Keeps self.old self.new }
        ensures numbered { NumberedReason result }
    {
        let Some(horizon) = horizons::horizon_of(line.value()) else {
            return Err(Reason::BadHorizon);
        };
        self.horizon = horizon;
        self.due = Some(Due::FirstFluent);
        Ok(())
    }

    // A name: 5 where there is no place for it, before its spelling, then 4.
    fn check_name(&self, line: &Line, fits: bool) -> Result<(), Reason>
        ensures answers { result
            ≡ cond fits
            (cond (is_new (spelled line.now.text.now self.now.names) (value_in line.now)) (Ok tt) (Err BadName))
            (Err NoRoom) }
        ensures numbered { NumberedReason result }
    {
        if !fits {
            return Err(Reason::NoRoom);
        }
        if !names::is_new(line.text, &self.names, line.value()) {
            return Err(Reason::BadName);
        }
        Ok(())
    }

    // A new fluent: at most 24.
    fn fluent_line(&mut self, line: &Line) -> Result<(), Reason>
        ensures step { step_of line.now.text.now result self.new
            ≡ fluent_line (draft_of line.now.text.now self.old) (value_in line.now) }
        ensures names { OnOk result (self.new.names
            ≡ with_name self.old.names line.now.place.start line.now.place.length) }
        ensures lent { self.new.lent ≡ self.old.lent }
        ensures numbered { NumberedReason result }
    {
        self.check_name(line, self.fluents < 24)?;
        self.names.places[self.names.count] = line.place;
        self.names.count += 1;
        self.fluents += 1;
        self.due = Some(Due::Fluent);
        Ok(())
    }

    // A new action: at most 8.
    fn action_line(&mut self, line: &Line) -> Result<(), Reason>
        ensures step { step_of line.now.text.now result self.new
            ≡ action_line (draft_of line.now.text.now self.old) (value_in line.now) }
        ensures names { OnOk result (self.new.names
            ≡ with_name self.old.names line.now.place.start line.now.place.length) }
        ensures lent { self.new.lent ≡ self.old.lent }
        ensures numbered { NumberedReason result }
    {
        self.check_name(line, self.names.count < self.fluents + 8)?;
        self.names.places[self.names.count] = line.place;
        self.names.count += 1;
        self.due = Some(Due::Action);
        Ok(())
    }

    // The code of a fluent literal, or refusal 6.
    fn fluent_literal(&self, line: &Line) -> Result<u8, Reason>
        ensures answers { result
            ≡ read_or (literal (spelled line.now.text.now self.now.names) 0 self.now.fluents (value_in line.now)) }
        ensures numbered { NumberedReason result }
    {
        let Some(code) = names::literal(line.text, &self.names, line.value(), 0, self.fluents)
        else {
            return Err(Reason::BadLiteral);
        };
        Ok(code as u8)
    }

    // The literal of a new law: 5 where there is no room for the law, before its spelling, then 6.
    fn new_literal(&self, line: &Line) -> Result<u8, Reason>
        ensures answers { result
            ≡ cond (ltb self.now.count (min 64 self.now.lent))
            (read_or (literal (spelled line.now.text.now self.now.names) 0 self.now.fluents (value_in line.now)))
            (Err NoRoom) }
        ensures room { OnOk result (self.now.count < min 64 self.now.lent) }
        ensures numbered { NumberedReason result }
    {
        if !self.has_room() {
            return Err(Reason::NoRoom);
        }
        self.fluent_literal(line)
    }

    // The head of a new law, in the same order: false, or a fluent literal.
    #[tactic(auto, unfolding(description_lines::specs::LineSteps::read_head))]
    fn new_head(&self, line: &Line) -> Result<Head, Reason>
        ensures answers { result
            ≡ cond (ltb self.now.count (min 64 self.now.lent))
            (read_or (read_head (spelled line.now.text.now self.now.names) self.now.fluents (value_in line.now)))
            (Err NoRoom) }
        ensures room { OnOk result (self.now.count < min 64 self.now.lent) }
        ensures numbered { NumberedReason result }
    {
        if !self.has_room() {
            return Err(Reason::NoRoom);
        }
        if spelling::is_false(line.value()) {
            return Ok(Head::False);
        }
        Ok(Head::Lit(self.fluent_literal(line)?))
    }

    // A law is whole: it joins those read, and a law or the end is due.
    fn whole_law(&mut self, law: Law)
        requires { self.old.count < min 64 self.old.lent }
        ensures step { (text : List ℕ) → step_of text (Ok tt) self.new ≡ next law_due (whole (draft_of text self.old) law) }
        ensures keeps { Keeps self.old self.new }
    {
        self.laws[self.count] = law;
        self.count += 1;
        self.due = Some(Due::NewLaw);
    }

    // The if-list: a static law is whole behind it, a dynamic one wants its after-list.
    fn if_line(&mut self, kind: Kind, head: Head, list: Codes)
        requires { self.old.count < min 64 self.old.lent }
        ensures step { (text : List ℕ)
            → step_of text (Ok tt) self.new
            ≡ if_line (draft_of text self.old) (law_of kind head [] []) (codes (codes_in list)) }
        ensures keeps { Keeps self.old self.new }
    {
        let if_codes = list.places.codes;
        let law = Law {
            kind,
            head,
            if_count: list.places.count,
            if_codes,
            after_count: 0,
            after_codes: [0; 6],
        };
        match kind {
            Kind::Static => self.whole_law(law),
            Kind::Dynamic => self.due = Some(Due::After(law)),
        }
    }

    // The end line has no value; nothing is due behind it.
    fn end_line(&mut self, line: &Line) -> Result<(), Reason>
        ensures step { step_of line.now.text.now result self.new
            ≡ end_line (draft_of line.now.text.now self.old) (value_in line.now) }
        ensures keeps { Keeps self.old self.new }
        ensures numbered { NumberedReason result }
    {
        if !line.value().is_empty() {
            return Err(Reason::WrongLine);
        }
        self.due = None;
        Ok(())
    }

    // A line that is a name, a new law or the end, by its key.
    fn later_line(&mut self, line: &Line, list: Codes) -> Result<(), Reason>
        ensures step { step_of line.now.text.now result self.new
            ≡ later_line self.old.lent (draft_of line.now.text.now self.old) (number_of_key line.now.key)
            (value_in line.now) (codes (codes_in list)) }
        ensures names { OnOk result (self.new.names
            ≡ joined (declares_name (number_of_key line.now.key)) line.now.place.start line.now.place.length
            self.old.names) }
        ensures lent { self.new.lent ≡ self.old.lent }
        ensures numbered { NumberedReason result }
    {
        match line.key {
            Key::Fluent => return self.fluent_line(line),
            Key::Action => return self.action_line(line),
            Key::Static => self.due = Some(Due::If(Kind::Static, self.new_head(line)?)),
            Key::Dynamic => self.due = Some(Due::If(Kind::Dynamic, self.new_head(line)?)),
            Key::Causes => self.due = Some(Due::By(self.new_head(line)?)),
            Key::Default => self.whole_law(law_forms::default_law(self.new_literal(line)?)),
            Key::Inertial => self.whole_law(law_forms::inertial_law(self.new_literal(line)?)),
            Key::Nonexecutable if self.has_room() => self.whole_law(law_forms::nonexecutable_law(
                list.places,
            )),
            Key::Nonexecutable => return Err(Reason::NoRoom),
            _ => return self.end_line(line),
        }
        Ok(())
    }

    // A line; its list, if it has one, is read already.
    #[tactic(auto, unfolding(crate::specs::Internal::step_with))]
    pub fn line_step(&mut self, line: &Line, list: Codes) -> Result<(), Reason>
        ensures step { (due : code.Due)
            → self.old.due ≡ Some due
            → step_of line.now.text.now result self.new
            ≡ step_with self.old.lent (due_of due) (draft_of line.now.text.now self.old) (number_of_key line.now.key)
            (value_in line.now) (codes (codes_in list)) }
        ensures names { OnOk result (self.new.names
            ≡ joined (declares_name (number_of_key line.now.key)) line.now.place.start line.now.place.length
            self.old.names) }
        ensures lent { self.new.lent ≡ self.old.lent }
        ensures numbered { NumberedReason result }
    {
        let due = self.due.ok_or(Reason::WrongLine)?;
        if !due.allows(line.key) {
            return Err(Reason::WrongLine);
        }
        match due {
            Due::Horizon => return self.horizon_line(line),
            Due::If(kind, head) => self.if_line(kind, head, list),
            Due::After(law) => {
                let after_codes = list.places.codes;
                let whole = Law {
                    after_count: list.places.count,
                    after_codes,
                    ..law
                };
                self.whole_law(whole);
            }
            Due::By(head) => self.whole_law(law_forms::causes_law(head, list.places)),
            _ => return self.later_line(line, list),
        }
        Ok(())
    }
}
