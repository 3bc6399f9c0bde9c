//! The reader of a file, which takes the bytes in pieces.
ghost use Rattle.std.specs.Prelude.{◌≡◌, ◌≢◌, [], ◌+◌, ◌<◌, ◌≤◌, ◌^◌, ◌⊎◌, ◌↔◌, length, List, ℕ, true, take, Some, None, Ok, IfOk, IfNone, OnSome, IsTrue};
ghost use Rattle.std.specs.Option.{option_to_list};
ghost use Rattle.dsr_records.specs.meaning.Records.{LayoutTable};
ghost use Rattle.dsr_events.specs.meaning.Orderly.{Placed, has_ended};
ghost use Rattle.dsr_file.specs.inner.Allowance.{allowance, left};
ghost use Rattle.dsr_file.specs.inner.Stages.{event_at};
ghost use Rattle.dsr_file.specs.layer.Runs.{ended};

use crate::closed::Closed;
use crate::cutter::{Cut, Cutter};
use crate::grammar::{Grammar, Step};
use crate::phase::Phase;
use dsr_cells::NoMemory;
use dsr_events::{Ending, Event, EventPart, FileFault, Outcome};
use dsr_records::{CheckedLine, Layout};
use std::alloc::Global;

/// Reads a file by a layout: takes its bytes in pieces, and gives its events one by one.
pub struct FileReader {
    alloc: Global,
    layout: Layout,
    cutter: Cutter,
    grammar: Grammar,
    given: u64,
    place: u64,
    phase: Phase,
    ending: Option<Ending>,
    // A line has at least one byte, and the bytes that the cutter keeps belong to no counted line.
    ghost lines_given: { grammar.lines + length cutter.bytes.items ≤ given },
    ghost given_small: { given ≤ 2 ^ 36 },
    ghost place_small: { place ≤ given + allowance phase },
}

/// Written out, so that dropping one is a call: a derived drop is proved anew wherever it happens.
impl Drop for FileReader {
    fn drop(self) {
        let FileReader {
            alloc: _,
            layout: _,
            cutter: _,
            grammar: _,
            given: _,
            place: _,
            phase: _,
            ending: _,
        } = self;
    }
}

impl FileReader {
    ghost use Rattle.dsr_file.specs.inner.ReaderSteps.{Advances, Gives, HasBegun, HasGivenAll, GivesBeforeItUses, StandsAs, UsesBytes, AppliesCut, AppliesStep, EndsText};
    ghost use Rattle.dsr_file.specs.inner.Standing.{Stands, SameBut, SameText, AtLines, EndsAfter, IsDone, bytes_used, events_left, ending_told, first_ending};
    ghost use Rattle.dsr_file.specs.inner.Cutting.{FitsCut};
    ghost use Rattle.dsr_file.specs.declared.phase.Phase.TheVariants as phases;

    /// A reader that has used no bytes. It keeps the allocator and a copy of the layout.
    ///
    /// # Errors
    ///
    /// `NoMemory`: out of memory for the buffer of the longest line.
    pub fn new(alloc: Global, layout: &Layout) -> Result<FileReader, NoMemory>
        ensures stands { IfOk result (λ r. Stands layout.now r [] []) }
        ensures open { IfOk result (λ r. ending_told r ≡ None) }
        ensures used { IfOk result (λ r. bytes_used r ≡ 0) }
    {
        Ok(FileReader {
            alloc,
            layout: layout.copy(),
            cutter: Cutter::new(alloc)?,
            grammar: Grammar::new(),
            given: 0,
            place: 0,
            phase: Phase::Reading,
            ending: None,
        })
    }

    /// The number of bytes used.
    pub fn given(&self) -> u64
        ensures used { result ≡ bytes_used self.now }
        ensures bytes { (layout : LayoutTable) (b : List ℕ) (es : List Placed)
            → Stands layout self.now b es → result ≡ length b }
    {
        self.given
    }

    /// The place of the next event.
    #[inline(always)]
    pub(crate) fn place(&self) -> u64
        ensures place { result ≡ self.now.place }
        ensures small { result < 2 ^ 37 }
    {
        self.place
    }

    /// Whether Ended was given.
    pub fn done(&self) -> bool
        ensures phase { IsTrue result ↔ IsDone self.now }
        ensures ended { (layout : LayoutTable) (b : List ℕ) (es : List Placed)
            → Stands layout self.now b es → (IsTrue result ↔ (has_ended es ≡ true)) }
    {
        self.phase.is_done()
    }

    /// The outcome that was given.
    pub(crate) fn outcome(&self) -> Outcome
        requires { IsDone self.now }
        ensures { self.now.phase ≡ phases.Done result }
    {
        match self.phase {
            Phase::Done(outcome) => outcome,
            Phase::Reading | Phase::Waiting(_) => unreachable!(),
        }
    }

    /// Nothing closed.
    pub(crate) fn nothing_closed(&self) -> Closed
        ensures { result ≡ None }
    {
        Closed::new(self.alloc)
    }

    /// Uses bytes of a piece, up to the next event. Returns how many, and the event. A waiting outcome is given first.
    ///
    /// Conditions: `finish` was not called, and at most 2^36 bytes are given in all.
    pub fn take(&mut self, piece: &[u8]) -> (usize, Option<Event>)
        requires open { ending_told self.old ≡ None }
        requires room { bytes_used self.old + length piece.now ≤ 2 ^ 36 }

        // The reader represents the bytes used and the events given.
        ensures stands { Advances self.old self.new (take result.0 piece.now)
            (option_to_list result.1) }
        // These are the first events of the bytes; if no event is returned, they are all.
        ensures begins { HasBegun self.new None }
        ensures all { IfNone result.1 (HasGivenAll self.new None) }
        // If an event of the bytes used so far is waiting, no further byte is used.
        ensures waiting { GivesBeforeItUses self.old result.0 }
        // If no event is returned, the whole piece was used, unless Ended was given.
        ensures bound { result.0 ≤ length piece.now }
        ensures whole { IfNone result.1 ((result.0 ≡ length piece.now) ⊎ IsDone self.new) }
        ensures done { IsDone self.old
            → (result.0 ≡ 0) × (result.1 ≡ None) × (self.new ≡ self.old) }
        ensures used { bytes_used self.new ≡ bytes_used self.old + result.0 }
        ensures open { ending_told self.new ≡ None }
        ensures progress { OnSome result.1
            (events_left self.new < result.0 + events_left self.old) }
    {
        if self.done() {
            return (0, None);
        }
        let place = self.place;
        let mut part = self.nothing_closed();
        let used = self.take_part(piece, &mut part);
        let event = part.take_event(place);
        drop(part);
        (used, event)
    }

    /// The next event at the end of the text, until there is none. Only the ending of the first call counts.
    pub fn finish(&mut self, ending: Ending) -> Option<Event>
        ensures ending { ending_told self.new ≡ Some (first_ending self.old ending) }
        ensures used { bytes_used self.new ≡ bytes_used self.old }
        ensures stands { Gives self.old self.new (option_to_list result) }
        // The events given are the first of the text; if no event is returned, they are all.
        ensures begins { HasBegun self.new (Some (first_ending self.old ending)) }
        ensures all { IfNone result
            (HasGivenAll self.new (Some (first_ending self.old ending))) }
        ensures done { IfNone result (IsDone self.new) }
        ensures after { IsDone self.old → result ≡ None }
        ensures progress { OnSome result (events_left self.new < events_left self.old) }
    {
        self.set_ending(ending);
        match self.phase {
            Phase::Reading => Some(self.finish_lines(ending)),
            Phase::Waiting(outcome) => Some(self.end(outcome)),
            Phase::Done(_) => None,
        }
    }

    /// Uses bytes of a piece, up to the next event, which `part` becomes: its place is that of the reader before. Returns
    /// how many. A waiting outcome is given first.
    #[inline(always)]
    pub(crate) fn take_part(&mut self, piece: &[u8], part: &mut Closed) -> usize
        requires open { ending_told self.old ≡ None }
        requires none { part.old ≡ None }
        requires room { bytes_used self.old + length piece.now ≤ 2 ^ 36 }
        ensures stands { Advances self.old self.new (take result piece.now)
            (option_to_list (event_at self.old.place part.new)) }
        ensures begins { HasBegun self.new None }
        ensures all { IfNone part.new (HasGivenAll self.new None) }
        ensures waiting { GivesBeforeItUses self.old result }
        ensures bound { result ≤ length piece.now }
        ensures whole { IfNone part.new ((result ≡ length piece.now) ⊎ IsDone self.new) }
        ensures used { bytes_used self.new ≡ bytes_used self.old + result }
        ensures open { ending_told self.new ≡ None }
        ensures progress { OnSome part.new
            (events_left self.new < result + events_left self.old) }
    {
        match self.phase {
            Phase::Reading => self.read(piece, part),
            Phase::Waiting(outcome) => {
                self.close_with(outcome, part);
                0
            }
            Phase::Done(_) => 0,
        }
    }

    /// Uses a piece, up to the next event, which `part` becomes. Returns the number of bytes used.
    #[inline(always)]
    fn read(&mut self, piece: &[u8], part: &mut Closed) -> usize
        requires reading { self.old.phase ≡ phases.Reading }
        requires none { part.old ≡ None }
        requires room { self.old.given + length piece.now ≤ 2 ^ 36 }
        ensures bound { result ≤ length piece.now }
        ensures stands { UsesBytes self.old self.new (take result piece.now) part.new }
        ensures ending { self.new.ending ≡ self.old.ending }
        ensures reading { IfNone part.new (self.new.phase ≡ phases.Reading) }
        ensures whole { IfNone part.new (result ≡ length piece.now) }
        ensures some { OnSome part.new (0 < result) }
        ensures given { self.new.given ≡ self.old.given + result }
        ensures place { IfNone part.new (self.new.place ≡ self.old.place) }
    {
        let mut used = 0;
        while used < piece.len() {
            used += self.step(&piece[used..], part);
            if part.is_some() {
                return used;
            }
        }
        used
    }

    /// Uses bytes of a piece, up to the end of a line. Returns how many. A line of the usual form is read quickly.
    fn step(&mut self, piece: &[u8], part: &mut Closed) -> usize
        requires reading { self.old.phase ≡ phases.Reading }
        requires some { 0 < length piece.now }
        requires room { self.old.given + length piece.now ≤ 2 ^ 36 }
        requires none { part.old ≡ None }
        ensures some { 0 < result }
        ensures bound { result ≤ length piece.now }
        ensures stands { UsesBytes self.old self.new (take result piece.now) part.new }
        ensures given { self.new.given ≡ self.old.given + result }
        ensures ending { self.new.ending ≡ self.old.ending }
        ensures reading { IfNone part.new (self.new.phase ≡ phases.Reading) }
        ensures place { IfNone part.new (self.new.place ≡ self.old.place) }
    {
        if self.cutter.is_between_lines() && self.layout.is_standard() {
            if let Some((line, size)) = CheckedLine::usual(piece) {
                self.given += size as u64 + 1;
                let number = self.grammar.lines + 1;
                let step = self.grammar.checked(self.alloc, line, part);
                self.answer(number, step, part);
                return size + 1;
            }
        }
        let (used, cut) = self.cutter.take(piece);
        self.given += used as u64;
        self.cut(cut, &piece[..used], part);
        used
    }

    /// Applies the result of the cutter, which has used these bytes.
    fn cut(&mut self, cut: Cut, used: &[u8], part: &mut Closed)
        requires reading { self.old.phase ≡ phases.Reading }
        requires none { part.old ≡ None }
        requires some { 0 < length used.now }
        requires room { self.old.place + 1 ≤ self.old.given }
        requires lines { self.old.grammar.lines + 1 ≤ self.old.given }
        requires here { FitsCut cut used.now self.old.cutter }
        ensures stands { AppliesCut self.old self.new cut used.now part.new }
        ensures same { SameText self.old self.new }
        ensures reading { IfNone part.new (self.new.phase ≡ phases.Reading) }
        ensures place { IfNone part.new (self.new.place ≡ self.old.place) }
    {
        let number = self.grammar.lines + 1;
        match cut {
            Cut::More => {}
            Cut::Kept => {
                let step = self
                    .grammar
                    .line(self.alloc, &self.layout, self.cutter.line(), part);
                self.cutter.clear();
                self.answer(number, step, part);
            }
            Cut::Here => {
                let line = &used[..used.len() - 1];
                let step = self.grammar.line(self.alloc, &self.layout, line, part);
                self.answer(number, step, part);
            }
            Cut::Long => {
                let long = Outcome::Fault {
                    line: number,
                    fault: FileFault::LongLine,
                };
                self.close_with(long, part);
            }
        }
    }

    /// The next event, with this content.
    fn event(&mut self, part: EventPart) -> Event
        requires { self.old.place + 1 ≤ self.old.given + allowance self.old.phase }
        ensures event { result ≡ record { place = self.old.place; part = part } }
        ensures place { self.new.place ≡ self.old.place + 1 }
        ensures rest { SameBut self.old self.new }
    {
        let place = self.place;
        self.place += 1;
        Event { place, part }
    }

    /// Gives Ended with the outcome.
    fn end(&mut self, outcome: Outcome) -> Event
        requires { self.old.place + 1 ≤ self.old.given + 3 }
        ensures event { result ≡ ended self.old.place outcome }
        ensures place { self.new.place ≡ self.old.place + 1 }
        ensures same { SameText self.old self.new }
        ensures done { self.new.phase ≡ phases.Done outcome }
    {
        self.phase = Phase::Done(outcome);
        self.event(EventPart::Ended(outcome))
    }

    /// The same as `end`, with Ended as what is closed. Not inlined, since a file has one.
    #[cold]
    #[inline(never)]
    fn close_with(&mut self, outcome: Outcome, part: &mut Closed)
        requires { self.old.place + 1 ≤ self.old.given + 3 }
        ensures part { part.new ≡ Some (EventPart.Ended outcome) }
        ensures place { self.new.place ≡ self.old.place + 1 }
        ensures same { SameText self.old self.new }
        ensures done { self.new.phase ≡ phases.Done outcome }
    {
        let event = self.end(outcome);
        part.set(event.part);
    }

    /// Ends the file after this content: gives its event and keeps the outcome; without content, gives the outcome.
    fn end_after(&mut self, part: Option<EventPart>, outcome: Outcome) -> Event
        requires { self.old.place + 1 ≤ self.old.given + 2 }
        ensures gives { EndsAfter self.old.place part outcome result self.new }
        ensures place { self.new.place ≡ self.old.place + 1 }
        ensures same { SameText self.old self.new }
    {
        match part {
            Some(part) => {
                self.phase = Phase::Waiting(outcome);
                self.event(part)
            }
            None => self.end(outcome),
        }
    }

    /// Counts the event of a good line, if it closed something.
    #[inline(always)]
    fn good(&mut self, part: &Closed)
        requires room { self.old.place + 1 ≤ self.old.given }
        requires reading { self.old.phase ≡ phases.Reading }
        ensures place { self.new.place ≡ self.old.place + length (option_to_list part.now) }
        ensures rest { SameBut self.old self.new }
    {
        if part.is_some() {
            self.place += 1;
        }
    }

    /// Applies the result of a line. `part` is what the line closed, and becomes the content of the next event, if there is one.
    #[inline(always)]
    fn answer(&mut self, line: u64, step: Step, part: &mut Closed)
        requires reading { self.old.phase ≡ phases.Reading }
        requires room { self.old.place + 1 ≤ self.old.given }
        ensures stands { AppliesStep self.old self.new line step part.old part.new }
        ensures same { SameText self.old self.new }
        ensures reading { IfNone part.new (self.new.phase ≡ phases.Reading) }
        ensures place { IfNone part.new (self.new.place ≡ self.old.place) }
    {
        match step {
            Step::Good => self.good(part),
            _ => self.answer_apart(line, step, part),
        }
    }

    /// The same as `answer`, not inlined, for the lines that end the file.
    #[cold]
    #[inline(never)]
    fn answer_apart(&mut self, line: u64, step: Step, part: &mut Closed)
        requires reading { self.old.phase ≡ phases.Reading }
        requires room { self.old.place + 1 ≤ self.old.given }
        ensures stands { AppliesStep self.old self.new line step part.old part.new }
        ensures same { SameText self.old self.new }
        ensures reading { IfNone part.new (self.new.phase ≡ phases.Reading) }
        ensures place { IfNone part.new (self.new.place ≡ self.old.place) }
    {
        match step {
            Step::Good => self.good(part),
            Step::Faulty(fault) => {
                let event = self.end_after(part.take(), Outcome::Fault { line, fault });
                part.set(event.part);
            }
            Step::NoMemory => {
                let refused = Outcome::Fault {
                    line,
                    fault: FileFault::Memory,
                };
                self.close_with(refused, part);
            }
        }
    }

    /// Keeps the ending of the first call.
    fn set_ending(&mut self, ending: Ending)
        ensures ending { self.new.ending ≡ Some (first_ending self.old ending) }
        ensures phase { self.new.phase ≡ self.old.phase }
        ensures used { self.new.given ≡ self.old.given }
        ensures ended { self.old.phase ≢ phases.Reading → StandsAs self.old self.new }
        ensures reading { self.old.phase ≡ phases.Reading
            → (layout : LayoutTable) (b : List ℕ) (es : List Placed)
            → Stands layout self.old b es → AtLines layout self.new (Some ending) b es }
    {
        if self.ending.is_none() {
            self.ending = Some(ending);
        }
    }

    /// Ends the file after the last piece. At the end of its text, what the cutter has kept is the last line, unless it is empty.
    fn finish_lines(&mut self, ending: Ending) -> Event
        requires reading { self.old.phase ≡ phases.Reading }
        ensures stands { EndsText self.old self.new ending result }
        ensures left { left self.new.phase < 2 }
        ensures same { SameText self.old self.new }
    {
        if self.cutter.line().is_empty() {
            return self.no_line(ending);
        }
        match ending {
            Ending::Whole => self.last_line(),
            _ => self.no_line(ending),
        }
    }

    /// Ends the file if the last piece is not a line.
    fn no_line(&mut self, ending: Ending) -> Event
        requires reading { self.old.phase ≡ phases.Reading }
        requires none { ending ≡ Ending.Whole → length self.old.cutter.bytes.items ≡ 0 }
        ensures stands { EndsText self.old self.new ending result }
        ensures left { left self.new.phase < 2 }
        ensures same { SameText self.old self.new }
    {
        let outcome = self.grammar.outcome(ending);
        self.end(outcome)
    }

    /// Takes the last piece as a line.
    fn last_line(&mut self) -> Event
        requires reading { self.old.phase ≡ phases.Reading }
        requires some { 0 < length self.old.cutter.bytes.items }
        ensures stands { EndsText self.old self.new Ending.Whole result }
        ensures left { left self.new.phase < 2 }
        ensures same { SameText self.old self.new }
    {
        let line = self.grammar.lines + 1;
        let (step, closed) = self
            .grammar
            .last_line(self.alloc, &self.layout, self.cutter.line());
        self.cutter.clear();
        match step {
            Step::Good => {
                let outcome = self.grammar.outcome(Ending::Whole);
                self.end_after(closed, outcome)
            }
            Step::Faulty(fault) => self.end_after(closed, Outcome::Fault { line, fault }),
            Step::NoMemory => {
                drop(closed);
                self.end(Outcome::Fault {
                    line,
                    fault: FileFault::Memory,
                })
            }
        }
    }
}
