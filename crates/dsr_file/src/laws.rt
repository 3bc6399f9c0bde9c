//! Laws of the events of texts: functions that do nothing, whose contracts are the laws.
ghost use Rattle.std.specs.Prelude.{◌≡◌, ◌++◌, List, ℕ, true};
ghost use mathlib.Core.List.{IsPrefix};
ghost use Rattle.dsr_records.specs.meaning.Records.{LayoutTable};
ghost use Rattle.dsr_events.specs.meaning.Orderly.{has_ended, Placed};
ghost use Rattle.dsr_events.specs.layer.Orderly.{IsOrderly};
ghost use Rattle.dsr_file.specs.meaning.Runs.{FileText};
ghost use Rattle.dsr_file.specs.layer.Runs.{IsRun};
ghost use Rattle.dsr_file.specs.meaning.Texts.{so_far, text_events};
ghost use Rattle.dsr_events.specs.declared.fault.Ending.{Ending};

/// The events of bytes are the first events of every text that begins with these bytes.
pub fn so_far_begins()
    ensures { (layout : LayoutTable) (bytes more : List ℕ) (ending : Ending)
        → IsPrefix (so_far layout bytes) (text_events layout (bytes ++ more) ending) }
{}

/// A fault is final: if the events of bytes have ended, they are those of every text that begins with these bytes.
pub fn fault_is_final()
    ensures { (layout : LayoutTable) (bytes more : List ℕ) (ending : Ending)
        → has_ended (so_far layout bytes) ≡ true
        → so_far layout bytes ≡ text_events layout (bytes ++ more) ending }
{}

/// Every run of a text is an orderly list.
pub fn run_is_orderly()
    ensures { (layout : LayoutTable) (text : FileText) (events : List Placed)
        → IsRun layout text events → IsOrderly events }
{}
