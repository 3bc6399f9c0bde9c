//! The name that distinguishes a relay from other relays.
ghost use Rattle.std.specs.Prelude.{ℕ};
ghost use Rattle.atomic_table.specs.Seated.{TableId, table_id_coded};
ghost use Rattle.atomic_table.specs.declared.badge.Badge.{Badge};
ghost use Rattle.crossbeam_channel.specs.declared.flavors.array.Key.{Key};
ghost use Rattle.dsr_relay.specs.layer.Rule.{Message};
ghost use base.Fml.{ftrue};

use std::marker::{Model, PhantomData};

/// The name of a relay, with its capacity in messages. It is used only in contracts: no value of it is made.
pub struct Name {
    of: PhantomData<()>,
    pub ghost table: { TableId } by { table_id_coded },
    pub ghost key: { Badge (Key Message) },
    pub ghost capacity: { ℕ },
}

impl Model for Name {
    ghost also_owns = { λ _. ftrue };
}
