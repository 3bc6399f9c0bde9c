//! The destination of a file's events.
ghost use Rattle.std.specs.Prelude.{◌≡◌, ◌<◌, ◌^◌, List, [], ◌∷◌, ◌++◌, true, false, OnOk, IfErr};
ghost use Rattle.dsr_events.specs.meaning.Orderly.{Placed};
ghost use Rattle.dsr_events.specs.layer.Orderly.{block_event};
ghost use Rattle.dsr_file.specs.layer.Runs.{IsSomeRun};

use dsr_events::{Event, EventList};
use dsr_records::Block;

/// Takes the events of a file, one after another.
pub trait Sink {
    /// What distinguishes one sink from another.
    type Name;

    /// The events that it took.
    ghost list: { Self → List Placed };

    /// Its name, which no call changes.
    ghost name: { Self → Self.Name };

    /// Adds the event to the list. The list with the event is a run of some text.
    ///
    /// # Errors
    ///
    /// If the sink refuses the event, the event is returned and the list is unchanged.
    fn put(&mut self, event: Event) -> Result<(), Event>
        requires { IsSomeRun (list self.old ++ event ∷ []) }
        ensures added { OnOk result (list self.new ≡ list self.old ++ event ∷ []) }
        ensures refused { IfErr result (λ back. (back ≡ event) × (list self.new ≡ list self.old)) }
        ensures name { name self.new ≡ name self.old };

    /// Adds the event of a block with this place if the sink has an old block to give for it, and returns whether it
    /// did. The two blocks are exchanged: the value of the old one is meaningless, and its memory may be reused.
    /// Otherwise nothing changes, and the event is for `put`. A sink that keeps its events has no old block.
    fn put_block(&mut self, _place: u64, _block: &mut Block) -> bool
        requires small { _place < 2 ^ 37 }
        requires run { IsSomeRun (list self.old ++ block_event _place _block.old ∷ []) }
        ensures added { result ≡ true
            → list self.new ≡ list self.old ++ block_event _place _block.old ∷ [] }
        ensures kept { result ≡ false
            → (_block.new ≡ _block.old) × (list self.new ≡ list self.old) }
        ensures name { name self.new ≡ name self.old }
    {
        false
    }

    /// Notes that this many bytes of the file were read since the last note. A sink may count them to
    /// bound what waits in it; the default does nothing.
    fn note_bytes(&mut self, _bytes: usize)
        ensures list { list self.new ≡ list self.old }
        ensures name { name self.new ≡ name self.old }
    {}
}

impl Sink for EventList {
    type Name = ();

    ghost list = { λ l. l };

    ghost name = { λ _. tt };

    fn put(&mut self, event: Event) -> Result<(), Event> {
        self.push(event)
    }
}
