#![tactic(auto)]

mod examples;
mod lots;
mod refusals;
mod show;
mod tour;

// Writes books, seals, checks and reads them, shows every refusal of a book by its number, layer and place, and asks
// books as lots.
fn main(rt: HostRuntime) -> anyhow::Result<()> {
    tour::tour(&rt, rt.alloc())?;
    lots::lots(&rt, rt.alloc())
}
