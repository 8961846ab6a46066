//! The rows of a board: seats that are driven by hand, and updates that are stopped and done again.
//!
//! The file of `data/` has rows, a call with the answer that is wanted each. Its head says what the calls and their
//! arguments mean. A board stands over a site in memory that tells contracts nothing but its failures (`Quiet`); what a
//! call of the board asks of its caller is tested before it (`tup_apart`, `desk`). Behind the rows, crews drain boards over the
//! site in memory itself, each runner in a thread of its own, and come to what one runner comes to (`crew`).
#![tactic(auto)]

mod clean;
mod crash;
mod crew;
mod desk;
mod opening;
mod order;
mod place;
mod project;
mod quiet;
mod report;
mod rows;
mod script;
mod seat;
mod shown;
mod store;
mod sweep;

use crew::try_crews;
use project::Given;
use std::io;
use tup_rows::try_file_by;

fn main(rt: HostRuntime) -> io::Result<()> {
    let alloc = rt.alloc();
    try_file_by(&rt, alloc, "board.rows", Given::new(alloc))?;
    match try_crews(&rt, alloc) {
        Ok(tried) => println!(&rt; "crews: {} boards, {} differ", tried.boards, tried.differ),
        Err(fault) => println!(&rt; "crews: {fault}"),
    }
}
