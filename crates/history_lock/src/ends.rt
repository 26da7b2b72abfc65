//! What sessions are made of.
ghost use Rattle.std.specs.Prelude.{◌≡◌, ◌+◌, ◌<◌, ◌≤◌, [], map, IfOk, IfErr};
ghost use Rattle.std.specs.List.{range_with_len};
ghost use Rattle.sessions.specs.Known.{fresh};
ghost use Rattle.history_lock.specs.Refusals.{IsRefusal};

use job_queue::{Consumer, Producer, Queue};
use sessions::{Fault, Session, Shared};
use std::alloc::{AllocError, Global};
use std::marker::Model;
use std::sync::{Arc, Wait};
use updater_state::Opening;
use version_log::{Published, Publisher, Reader};

/// What a session is made of. Contracts see its number.
pub(crate) struct Ends<J: Opening> {
    latest: Published<J>,
    reader: Reader<J>,
    producer: Producer<J>,
}

impl<J: Opening> Drop for Ends<J> {
    fn drop(self) {
        let Ends {
            latest: _,
            reader: _,
            producer: _,
        } = self;
    }
}

impl<J: Opening> Model for Ends<J> {
    ghost use Rattle.std.specs.Prelude.{◌≡◌, ℕ, ◌<◌, []};

    ghost Value = { ℕ };

    ghost view = { λ e. e.producer.number };

    ghost invariant = { λ e. (e.latest ≡ []) × (e.producer.pushed ≡ 0) × (e.producer.gone ≡ 0) × (e.producer.number < 64) };
}

impl<J: Opening> Ends<J> {
    fn into_session<C: Drop, G: Drop>(
        self,
        alloc: Global,
        shared: Arc<Shared<C, J, G>, Global>,
    ) -> Session<C, J, G>
        ensures { result ≡ fresh self }
    {
        let Ends {
            latest,
            reader,
            producer,
        } = self;
        Session::new(alloc, latest, reader, producer, shared)
    }
}

/// The ends of the next session.
fn next_ends<R: Wait + Drop, J: Opening>(
    current: &Published<J>,
    publisher: &mut Publisher<R, J>,
    consumer: &mut Consumer<J>,
    queue: &Queue<J>,
) -> Result<Ends<J>, Fault>
    requires seen { current.now ≡ [] }
    requires consumer { (consumer.old.taken ≡ []) × (consumer.old.made < J.sessions) × (consumer.old.made < 64) }
    ensures ends { IfOk result (λ e. (e ≡ consumer.old.made) × (consumer.new ≡ record consumer.old { made = consumer.old.made + 1 })) }
    ensures refused { IfErr result IsRefusal }
{
    let Ok(latest) = current.share() else {
        return Err(Fault::Memory);
    };
    let Ok(reader) = publisher.reader() else {
        return Err(Fault::EntryRefused);
    };
    let Ok(producer) = consumer.producer(queue) else {
        return Err(Fault::Memory);
    };
    Ok(Ends {
        latest,
        reader,
        producer,
    })
}

/// The ends of so many sessions.
#[tactic(auto, using(crate::proofs::Lists::range_more))]
pub(crate) fn all_ends<R: Wait + Drop, J: Opening>(
    alloc: Global,
    count: u16,
    current: &Published<J>,
    publisher: &mut Publisher<R, J>,
    consumer: &mut Consumer<J>,
    queue: &Queue<J>,
) -> Result<Vec<Ends<J>>, Fault>
    requires seen { current.now ≡ [] }
    requires consumer { (consumer.old.taken ≡ []) × (consumer.old.made ≡ 0) }
    requires count { (count ≡ J.sessions) × (count ≤ 64) }
    ensures ends { IfOk result (λ ends. ends.items ≡ range_with_len 0 count) }
    ensures refused { IfErr result IsRefusal }
    ensures made { IfOk result (λ ends. consumer.new.made ≡ count) }
{
    let Ok(mut ends) = Vec::with_capacity(alloc, count as usize) else {
        return Err(Fault::Memory);
    };
    for _number in 0..count {
        let next = next_ends(current, publisher, consumer, queue)?;
        let Ok(()) = ends.push(next) else {
            return Err(Fault::Memory);
        };
    }
    Ok(ends)
}

/// The sessions of these ends.
pub(crate) fn all_sessions<C: Drop, J: Opening, G: Drop>(
    alloc: Global,
    ends: Vec<Ends<J>>,
    shared: &Arc<Shared<C, J, G>, Global>,
) -> Result<Vec<Session<C, J, G>>, AllocError>
    ensures { IfOk result (λ sessions. sessions.items ≡ map fresh ends.items) }
{
    let mut sessions = Vec::with_capacity(alloc, ends.len())?;
    for end in ends {
        sessions.push(end.into_session(alloc, Arc::try_clone(shared)?))?;
    }
    Ok(sessions)
}
