use crate::outcomes::{Kept, Sealing};
use crate::tasks::Tasks;
use crate::ticket::{OpenTicket, SealedTicket};
use contention::policy::Policy;
use rules::stop::Stop;
use stores::word_store::WordStore;

#[cfg(test)]
mod tests;

// Changes one word as a keypad does, from the claim of its thread to the hand-in of its ticket.
fn change<S: WordStore, P: Policy>(
    tasks: &mut Tasks<S, P>,
    thread: u32,
    address: u32,
    word: u32,
) -> Result<(), Stop> {
    let idle = tasks.claim(thread)?;
    let open = tasks.begin(idle).map_err(|kept| {
        tasks.hand_in(kept.ticket);
        kept.reason
    })?;
    if let Err(stop) = tasks.store(&open, address, word) {
        give_up(tasks, open);
        return Err(stop);
    }
    match tasks.seal(open) {
        Ok(Sealing::Updater { ticket, number: _ }) => finish(tasks, ticket),
        Ok(
            Sealing::Reader {
                ticket,
                snapshot: _,
            },
        ) => tasks.hand_in(ticket),
        Err(Kept { ticket, reason }) => {
            give_up(tasks, ticket);
            return Err(reason);
        }
    }
    Ok(())
}

// Drains all words, and hands the ticket in.
fn finish<S: WordStore, P: Policy>(tasks: &mut Tasks<S, P>, sealed: SealedTicket) {
    let idle = tasks.drain_all(sealed).unwrap_or_else(|kept| kept.ticket);
    tasks.hand_in(idle);
}

// Goes back from a transaction that was refused or lost, and hands the ticket in.
fn give_up<S: WordStore, P: Policy>(tasks: &mut Tasks<S, P>, open: OpenTicket) {
    if let Ok(ended) = tasks.back(open) {
        tasks.hand_in(ended.ticket);
    }
}
