// The documents' examples about lists and about packing, run. The file `stdout` beside src/ was written from the documents,
// and the check compares.
#![tactic(auto)]

mod command_lists;
mod cuttings;
mod differences;
mod four;
mod masks;
mod packing;
mod port_lists;
mod refusals;
mod show;
mod sixteen;

use std::io;

fn main(rt: HostRuntime) -> io::Result<()> {
    command_lists::all(&rt)?;
    masks::all(&rt)?;
    port_lists::all(&rt)?;
    refusals::all(&rt)?;
    packing::all(&rt)?;
    cuttings::all(&rt)?;
    differences::all(&rt)?;
    sixteen::all(&rt)
}
