//! The two ends of `left_right`, under the store's name: what shows a version, and what sees it.
ghost use Rattle.std.specs.Prelude.{◌≡◌, ◌^◌, ◌<◌, ◌++◌, ◌∷◌, [], drop, All, IfOk, IfSome, Some};
ghost use mathlib.Core.List.{IsPrefix};
ghost use Rattle.version_log.specs.declared.published.Shown.{Shown};
ghost use Rattle.left_right.specs.Sides.{view as known};
ghost use Rattle.version_log.specs.Histories.{Grows};
ghost use Rattle.version_log.specs.Names.{Knows};
ghost use Rattle.version_log.specs.Stores.{named};

use crate::front::Naming;
use crate::published::{Published, Shown};
use atomic_table::{Join, Split};
use core::mem::replace_with;
use crossbeam_utils::rule::{Outcome, Protocol};
use left_right::writer::Writer;
use std::alloc::{AllocError, Global};
use std::marker::{Model, PhantomData};
use std::sync::Wait;

/// Whoever knows the store of what is shown knows it rightly.
pub struct OneStore;

impl Protocol<Shown, Option<Shown>> for OneStore {
    ghost use Rattle.std.specs.Prelude.{None};
    ghost use Rattle.version_log.specs.Names.{OneStoreOf};

    ghost holds = { OneStoreOf };

    ghost first = { None };
}

/// A step that finds, or leaves, the same store.
pub struct Finds;

impl Outcome<Shown, Option<Shown>> for Finds {
    ghost use Rattle.version_log.specs.Names.{FindsStore};

    ghost then = { FindsStore };
}

/// A step after which the store of what is shown is known.
pub struct Opens;

impl Outcome<Shown, Option<Shown>> for Opens {
    ghost use Rattle.std.specs.Prelude.{◌≡◌, Some};

    ghost then = { λ v x y w. (w ≡ Some y) × (y.0 ≡ x.0) };
}

/// The writer passes a reader its store, and keeps knowing it.
pub struct Tells;

impl Split<Option<Shown>> for Tells {
    ghost left = { λ v. v };

    ghost right = { λ v. v };
}

impl Join<Option<Shown>> for Tells {
    ghost use Rattle.std.specs.Prelude.{None};

    ghost both = { λ v w. w };

    ghost spent = { None };
}

type ShownReader = left_right::reader::Reader<Shown, Option<Shown>, OneStore>;

type ShownWriter = Writer<Shown, Shown, Option<Shown>, OneStore>;

/// A reader of the store `J`. It waits for nobody.
pub struct Reader<J: Naming> {
    reader: ShownReader,
    of: PhantomData<J>,
}

impl<J: Naming> Drop for Reader<J> {
    fn drop(self) {
        let Reader { reader: _, of: _ } = self;
    }
}

impl<J: Naming> Model for Reader<J> {
    ghost use Rattle.left_right.specs.Sides.{view as known};
    ghost use Rattle.version_log.specs.Names.{Knows};
    ghost use Rattle.version_log.specs.Stores.{named};

    ghost Value = { Unit {0} };

    ghost view = { λ l. tt };

    ghost invariant = { λ l. Knows (named J.book J.base) (known l.reader.place) };
}

// The reader, and what it found, unless that is of so many publications.
fn look_through(reader: ShownReader, count: u64) -> (ShownReader, Result<Option<Shown>, AllocError>)
    ensures kept { known result.0.place ≡ known reader.place }
    ensures found { IfOk result.1 (λ found. IfSome found (λ s. (w : Shown) → known reader.place ≡ Some w → w.0 ≡ s.0)) }
{
    match reader.enter_as::<Finds>() {
        Ok(reading) => {
            let found = reading.get().share_unless(count);
            (reading.leave(), found)
        }
        Err(reader) => (reader, Err(AllocError)),
    }
}

impl<J: Naming> Reader<J> {
    /// What is shown now, where that is later than what was seen. An error says that the entry or a
    /// share is refused. It takes no memory.
    #[tactic(auto, using(crate::proofs::Knowing::knows_as))]
    pub fn look_past(&mut self, seen: &Published<J>) -> Result<Option<Published<J>>, AllocError>
        ensures later { IfOk result (λ found. IfSome found (λ p. IsPrefix seen.now p)) }
        ensures grows { IfOk result (λ found. IfSome found (λ p. Grows J.base p)) }
    {
        let count = seen.publication();
        let found = replace_with(&mut self.reader, count, |reader, count| {
            look_through(reader, count)
        })?;
        let Some(shown) = found else {
            return Ok(None);
        };
        let found = Published::named(shown);
        if !seen.precedes(&found) {
            return Ok(None);
        }
        let _recalled = found.publication();
        Ok(Some(found))
    }
}

/// The writer of the store `J`. Its runtime waits for readers.
pub struct Publisher<R: Wait + Drop, J: Naming> {
    writer: ShownWriter,
    rt: R,
    of: PhantomData<J>,
}

impl<R: Wait + Drop, J: Naming> Model for Publisher<R, J> {
    ghost use Rattle.std.specs.Prelude.{◌≡◌, All, drop};
    ghost use Rattle.left_right.specs.Sides.{view as known};
    ghost use Rattle.version_log.specs.declared.published.Shown.{Shown};
    ghost use Rattle.version_log.specs.Names.{Knows};
    ghost use Rattle.version_log.specs.Stores.{named};

    ghost Value = { Unit {0} };

    ghost view = { λ p. tt };

    ghost invariant = { λ p. Knows (named J.book J.base) (known p.writer.desk.place) × (p.writer.desk.shown.value.0 ≡ named J.book J.base) × All (λ (s : Shown). s.0 ≡ named J.book J.base) (drop p.writer.behind p.writer.log.items) };
}

impl<R: Wait + Drop, J: Naming> Drop for Publisher<R, J> {
    fn drop(self) {
        let Self { writer, rt, of: _ } = self;
        drop(writer.take(&rt));
    }
}

// Publishes what is pending, which is of the store of what is shown.
fn publish_pending<R: Wait>(writer: ShownWriter, rt: &R) -> (ShownWriter, Result<(), AllocError>)
    requires { All (λ (s : Shown). s.0 ≡ writer.desk.shown.value.0) (drop writer.behind writer.log.items) }
    ensures kept { known result.0.desk.place ≡ known writer.desk.place }
    ensures shows { result.0.desk.shown.value.0 ≡ writer.desk.shown.value.0 }
    ensures pends { All (λ (s : Shown). s.0 ≡ writer.desk.shown.value.0) (drop result.0.behind result.0.log.items) }
{
    writer.publish_as::<Finds, R>(rt)
}

// Publishes what is pending, and then this version, of the same store.
fn show_next<R: Wait>(
    mut writer: ShownWriter,
    shown: Shown,
    rt: &R,
) -> (ShownWriter, Result<(), AllocError>)
    requires store { shown.0 ≡ writer.desk.shown.value.0 }
    requires pends { All (λ (s : Shown). s.0 ≡ writer.desk.shown.value.0) (drop writer.behind writer.log.items) }
    ensures kept { known result.0.desk.place ≡ known writer.desk.place }
    ensures shows { result.0.desk.shown.value.0 ≡ writer.desk.shown.value.0 }
    ensures pends { All (λ (s : Shown). s.0 ≡ writer.desk.shown.value.0) (drop result.0.behind result.0.log.items) }
{
    let Ok(()) = writer.append(shown) else {
        return (writer, Err(AllocError));
    };
    publish_pending(writer, rt)
}

// Publishes once more what is shown, after which the writer knows its store.
fn opened<R: Wait>(writer: ShownWriter, rt: &R) -> Result<ShownWriter, AllocError>
    requires { drop writer.behind writer.log.items ≡ [] }
    ensures { IfOk result (λ w. Knows writer.desk.shown.value.0 (known w.desk.place) × (w.desk.shown.value.0 ≡ writer.desk.shown.value.0) × (drop w.behind w.log.items ≡ [])) }
{
    let (writer, published) = writer.publish_as::<Opens, R>(rt);
    let Ok(()) = published else {
        drop(writer.take(rt));
        return Err(AllocError);
    };
    Ok(writer)
}

impl<R: Wait + Drop, J: Naming> Publisher<R, J> {
    /// Shows this version first, to so many readers at once.
    #[tactic(auto, using(crate::proofs::Knowing::knows_of))]
    pub fn new(
        alloc: Global,
        rt: R,
        first: &Published<J>,
        readers: usize,
    ) -> Result<Publisher<R, J>, AllocError>
        requires readers { (0 < readers) × (readers < 2 ^ 32) }
    {
        let second = first.shown()?;
        let writer = ShownWriter::new(alloc, first.shown()?, second, readers)?;
        let writer = opened(writer, &rt)?;
        Ok(Publisher {
            writer,
            rt,
            of: PhantomData,
        })
    }

    /// One more reader.
    #[tactic(auto, using(crate::proofs::Knowing::knows_as))]
    pub fn reader(&mut self) -> Result<Reader<J>, AllocError> {
        let mut reader = self.writer.factory().reader()?;
        reader.learn::<Tells>(self.writer.tell::<Tells>());
        Ok(Reader {
            reader,
            of: PhantomData,
        })
    }

    /// Shows readers this version. After a refusal they see what they saw, and a later call shows
    /// what is pending first.
    #[tactic(auto, using(crate::proofs::Knowing::knows_as))]
    pub fn show(&mut self, version: &Published<J>) -> Result<(), AllocError> {
        let shown = version.shown()?;
        replace_with(
            &mut self.writer,
            (shown, &self.rt),
            |writer, (shown, rt)| show_next(writer, shown, rt),
        )
    }
}
