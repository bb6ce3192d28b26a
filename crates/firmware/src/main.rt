// Runs the lent layer as firmware would: one receiver and one store for a transaction, a lent call for each thing that happens, and a line
// for each call. Store and output are filled with A5 at the start; the store is longer than its slots. Then a table of comparisons, and one
// of maps.
#![tactic(auto)]

mod calls;
mod comparisons;
mod maps;
mod says;

use std::io;

fn main(rt: HostRuntime) -> io::Result<()> {
    calls::rebuilt(&rt)?;
    calls::broken_off(&rt)?;
    calls::shorter(&rt)?;
    calls::neither(&rt)?;
    comparisons::table(&rt)?;
    maps::table(&rt)
}
