// The laws of stores and mounts.
ghost use Rattle.stores.specs.Laws.{StoreLaws};

use gates::GateKind;

// What holds of every store and mount, for every kind.
pub fn store_laws<K: GateKind>()
    ensures { StoreLaws K.means }
{}
