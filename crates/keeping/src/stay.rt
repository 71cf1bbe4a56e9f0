// What is told of a stay of lines in a store.
use stores::StoreFault;

#[derive(Drop)]
pub struct Stay {
    // how many chunks were taken
    pub chunks: usize,
    // how many rows were written, one for each line
    pub rows: usize,
    // how many of these rows read back the same
    pub same: usize,
    // what the store said when asked for as many chunks as all the lines need
    pub asked: Result<(), StoreFault>,
    // what stopped the laying before the last line, if anything
    pub stopped: Option<StoreFault>,
}
