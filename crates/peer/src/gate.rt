// What the gate of every call asks beside the record: settings and store (11), then the record (13).
ghost use Rattle.std.specs.Prelude.{◌≡◌};

// What a call is lent beside the record: nothing, a store of so many bytes, or both stores.
#[derive(Clone, Copy)]
pub enum Lent {
    Nothing,
    Store(usize),
    Both { store: usize, second: usize },
}
