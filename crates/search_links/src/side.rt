ghost use Rattle.search_links.specs.Hops.{view_of, Ordered};

// A book as the search reads it: where the links out of each cell begin, each link's label and the cell that it leads to, and the rows of both
// comparisons. The links out of a cell are in the order of their labels.
#[derive(Clone, Copy)]
pub struct Side {
    pub starts: [u16; 65],
    pub labels: [u16; 512],
    pub to: [u8; 512],
    pub ends: [u64; 128],
    pub ghost ordered: { Ordered (view_of starts labels to) },
}
