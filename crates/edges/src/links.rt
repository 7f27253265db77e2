// Links in three lists.

ghost use Rattle.edges.specs.Edges.{Held};
ghost use Rattle.edges.specs.Groups.{total, Grouped};

// Links between cells that a word has room for, in three lists: link k leads from cell from[k] by labels[k] to cell to[k]. The table of their groups,
// `starts`, counts them, and says which of them have a label of a group, where it groups them.
// Stays: lists of one length with their count beside them, since memory is fixed, and `edges`, `Held` and `Loaded` (specs/) speak of three lists.
#[derive(Drop)]
pub struct Links {
    pub starts: [u16; 66],
    pub from: [u8; 512],
    pub labels: [u16; 512],
    pub to: [u8; 512],
    pub ghost held: { Held (total starts) from to },
    pub ghost grouped: { Grouped starts labels },
}
