//! A response that is written in pieces, as they are made.
ghost use Rattle.std.specs.Prelude.{◌≡◌, ◌++◌, Some, IfOk, string_bytes};
ghost use Rattle.api_json.specs.AllDocs.{all_listed_data};
ghost use Rattle.api_json.specs.Changes.{rows_data};
ghost use Rattle.api_json.specs.Opened.{all_opened_data};
ghost use Rattle.serde_json.specs.Written.{compact_text};
ghost use Rattle.session_api.specs.Revisions.{opened_by};
ghost use Rattle.streams.specs.Counts.{CountsFailure};
ghost use Rattle.streams.specs.Writes.{Writes};
ghost use Rattle.model.specs.Query.{Opened, Query};
ghost use Rattle.http_response.specs.Measured.{HasLen};
ghost use Rattle.http_response.specs.Pieces.{CountsCut, IsListed, list_bytes, listed_bytes};
ghost use Rattle.http_response.specs.Response.{head_text};
ghost use Rattle.http_response.specs.Texts.{answer_text};

use crate::connection::Connection;
use crate::head::{Allow, HEAD_ROOM, Head, push_head};
use crate::listed::write_list;
use crate::opening::one_text;
use crate::status::StatusCode;
use api_json::{Frame, all_docs_frame, listed_text, opened_text, page_frame, row_text};
use arrayvec::ArrayString;
use document_id::DocId;
use queries::{Answer, AnswerKind, Document, Row};
use revision_id::RevId;
use session_api::Revisions;
use std::alloc::{AllocError, Global};
use std::marker::Model;
use streams::{Failed, Sink};

/// The most bytes that are written at once, unless a single item has more.
pub const PIECE: usize = 1_048_576;

/// Why a response was cut.
#[derive(Clone, Copy, Debug, PartialEq, Eq)]
pub enum Cut {
    /// A write failed.
    Write,
    /// Out of memory for the next item.
    Memory,
}

impl From<Failed> for Cut {
    ghost use Rattle.std.specs.Prelude.{◌≡◌};
    ghost use Rattle.http_response.specs.declared.pieces.Cut.TheVariants.{Write};

    ghost from_gives = { λ _ cut. cut ≡ Write };

    fn from(_failed: Failed) -> Cut {
        Cut::Write
    }
}

impl From<AllocError> for Cut {
    ghost use Rattle.std.specs.Prelude.{◌≡◌};
    ghost use Rattle.http_response.specs.declared.pieces.Cut.TheVariants.{Memory};

    ghost from_gives = { λ _ cut. cut ≡ Memory };

    fn from(_refused: AllocError) -> Cut {
        Cut::Memory
    }
}

/// A response with a list, of which each item is made into text only when it is written. Clauses see its bytes.
pub struct Pieces<O: Revisions> {
    /// The first piece, with room for [`PIECE`] bytes: the head, and what comes before the list.
    piece: String,
    parts: Parts<O>,
    /// What comes after the list.
    after: String,
}

/// What the text of the list is made of.
#[derive(Drop)]
pub(crate) enum Parts<O> {
    /// Revisions, rows or documents that are there.
    Made(Box<Answer>),
    /// Revisions that are made when their text is.
    Opening(Box<O>),
}

impl<O: Revisions + Drop> Drop for Pieces<O> {
    fn drop(self) {
        let Pieces {
            piece: _,
            parts: _,
            after: _,
        } = self;
    }
}

impl<O: Revisions> Model for Pieces<O> {
    ghost use Rattle.std.specs.Prelude.{ℕ, List, ◌++◌, string_bytes};
    ghost use Rattle.http_response.specs.Parts.{AreListed, parts_bytes};

    ghost Value = { List ℕ };

    ghost view = { λ p. string_bytes p.piece ++ (parts_bytes O.document O.shown p.parts ++ string_bytes p.after) };

    ghost invariant = { λ p. AreListed p.parts };
}

impl<O: Revisions + Drop> Pieces<O> {
    /// A whole response with the list of an answer. `len` is the length of the whole answer as text, in bytes:
    /// the head says it as it is given. Memory for a piece is taken here.
    ///
    /// # Errors
    ///
    /// Out of memory.
    #[tactic(auto, unfolding(crate::specs::Texts::answer_text))]
    pub fn new(
        alloc: Global,
        place: u64,
        connection: Connection,
        answer: Answer,
        len: usize,
    ) -> Result<Pieces<O>, AllocError>
        requires listed { IsListed answer }
        ensures bytes { IfOk result (λ pieces. pieces
            ≡ head_text StatusCode.Ok len place Allow.Unsaid connection ++ listed_bytes answer) }
        ensures response { (query : Query) → HasLen query answer len
            → IfOk result (λ pieces. Some pieces ≡ answer_text place connection query answer) }
    {
        let Frame { before, after } = frame(alloc, &answer)?;
        let piece = first_piece(alloc, place, connection, len, before.as_str())?;
        let answer = Box::new(alloc, answer)?;
        Ok(Pieces {
            piece,
            parts: Parts::Made(answer),
            after,
        })
    }

    /// The same with the revisions of a document that are made as they are written.
    ///
    /// # Errors
    ///
    /// Out of memory.
    #[tactic(auto, unfolding(crate::specs::Texts::answer_text))]
    pub fn opening(
        alloc: Global,
        place: u64,
        connection: Connection,
        opening: O,
        len: usize,
    ) -> Result<Pieces<O>, AllocError>
        ensures bytes { IfOk result (λ pieces. pieces ≡ head_text StatusCode.Ok len place Allow.Unsaid connection
            ++ listed_bytes (Opened (opened_by (O.document opening) (O.shown opening)))) }
        ensures response { (query : Query) → HasLen query (Opened (opened_by (O.document opening) (O.shown opening))) len
            → IfOk result (λ pieces. Some pieces ≡ answer_text place connection query (Opened (opened_by (O.document opening) (O.shown opening)))) }
    {
        let piece = first_piece(alloc, place, connection, len, "")?;
        let opening = Box::new(alloc, opening)?;
        Ok(Pieces {
            piece,
            parts: Parts::Opening(opening),
            after: String::new(alloc),
        })
    }

    /// Writes it, in pieces of at most [`PIECE`] bytes or of one item.
    ///
    /// # Errors
    ///
    /// A write failed, or out of memory for an item. A beginning of the text, not all, may have been
    /// written.
    pub fn write<W: Sink>(self, alloc: Global, writer: &mut W) -> Result<(), Cut>
        ensures written { Writes (W.taken writer.old) (W.taken writer.new) result self }
        ensures failures { CountsCut (W.failed_writes writer.old) (W.failed_writes writer.new) result }
    {
        let Pieces {
            piece,
            parts,
            after,
        } = self;
        match parts {
            Parts::Made(answer) => write_made(alloc, writer, piece, &answer, after.as_str()),
            Parts::Opening(opening) => write_opening(
                alloc,
                writer,
                piece,
                &*opening,
                after.as_str(),
            ),
        }
    }
}

/// What an answer has round its list.
fn frame(alloc: Global, answer: &Answer) -> Result<Frame, AllocError>
    requires { IsListed answer.now }
    ensures { IfOk result (λ frame. (string_bytes frame.before ++ list_bytes answer.now) ++ string_bytes frame.after
        ≡ listed_bytes answer.now) }
{
    match answer.kind() {
        AnswerKind::Opened(_) => Ok(Frame {
            before: String::new(alloc),
            after: String::new(alloc),
        }),
        AnswerKind::Changed(page) => page_frame(alloc, page),
        AnswerKind::Documents(documents) => all_docs_frame(alloc, documents),
        _ => unreachable!(),
    }
}

/// The head and what comes before the list, with room for a piece.
fn first_piece(
    alloc: Global,
    place: u64,
    connection: Connection,
    len: usize,
    before: &str,
) -> Result<String, AllocError>
    ensures { IfOk result (λ piece. string_bytes piece
        ≡ head_text StatusCode.Ok len place Allow.Unsaid connection ++ before.now) }
{
    let mut head = ArrayString::<HEAD_ROOM>::new();
    let said = Head {
        status: StatusCode::Ok,
        len,
        place,
        allow: Allow::Unsaid,
        connection,
    };
    push_head(&mut head, &said);
    let mut piece = String::with_capacity(alloc, PIECE)?;
    piece.push_str(head.as_str())?;
    piece.push_str(before)?;
    Ok(piece)
}

/// Writes the list of an answer, and a text after it, behind what is in the first piece.
fn write_made<W: Sink>(
    alloc: Global,
    writer: &mut W,
    first: String,
    answer: &Answer,
    after: &str,
) -> Result<(), Cut>
    requires listed { IsListed answer.now }
    ensures written { Writes (W.taken writer.old) (W.taken writer.new) result
        (string_bytes first ++ (list_bytes answer.now ++ after.now)) }
    ensures failures { CountsCut (W.failed_writes writer.old) (W.failed_writes writer.new) result }
{
    match answer.kind() {
        AnswerKind::Opened(opened) => write_opened(alloc, writer, first, opened, after),
        AnswerKind::Changed(page) => write_rows(alloc, writer, first, &page.rows, after),
        AnswerKind::Documents(documents) => write_documents(alloc, writer, first, documents, after),
        _ => unreachable!(),
    }
}

/// Writes revisions.
fn write_opened<W: Sink>(
    alloc: Global,
    writer: &mut W,
    first: String,
    opened: &[Result<Document, RevId>],
    after: &str,
) -> Result<(), Cut>
    ensures written { Writes (W.taken writer.old) (W.taken writer.new) result
        (string_bytes first ++ (compact_text (all_opened_data opened.now) ++ after.now)) }
    ensures failures { CountsCut (W.failed_writes writer.old) (W.failed_writes writer.new) result }
{
    write_list(writer, first, opened, after, |one| opened_text(alloc, one))
}

/// Writes rows of changes.
fn write_rows<W: Sink>(
    alloc: Global,
    writer: &mut W,
    first: String,
    rows: &[Row],
    after: &str,
) -> Result<(), Cut>
    ensures written { Writes (W.taken writer.old) (W.taken writer.new) result
        (string_bytes first ++ (compact_text (rows_data rows.now) ++ after.now)) }
    ensures failures { CountsCut (W.failed_writes writer.old) (W.failed_writes writer.new) result }
{
    write_list(writer, first, rows, after, |row| row_text(alloc, row))
}

/// Writes documents, each with its winner.
fn write_documents<W: Sink>(
    alloc: Global,
    writer: &mut W,
    first: String,
    documents: &[(DocId, RevId)],
    after: &str,
) -> Result<(), Cut>
    ensures written { Writes (W.taken writer.old) (W.taken writer.new) result
        (string_bytes first ++ (compact_text (all_listed_data documents.now) ++ after.now)) }
    ensures failures { CountsCut (W.failed_writes writer.old) (W.failed_writes writer.new) result }
{
    write_list(
        writer,
        first,
        documents,
        after,
        |listed| listed_text(alloc, listed),
    )
}

/// Writes the revisions of a document, each made then, and a text after them, behind what is in the first piece.
fn write_opening<O: Revisions, W: Sink>(
    alloc: Global,
    writer: &mut W,
    first: String,
    opening: &O,
    after: &str,
) -> Result<(), Cut>
    ensures written { Writes (W.taken writer.old) (W.taken writer.new) result
        (string_bytes first ++ (list_bytes (Opened (opened_by (O.document opening.now) (O.shown opening.now))) ++ after.now)) }
    ensures failures { CountsCut (W.failed_writes writer.old) (W.failed_writes writer.new) result }
{
    write_list(
        writer,
        first,
        opening.revs(),
        after,
        |rev| one_text(alloc, opening, *rev),
    )
}
