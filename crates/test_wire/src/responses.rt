//! The texts of responses, most of which come about on no connection of one session.

use crate::histories::entry_of;
use http_framing::FramingFault;
use http_request::{Extent, Form};
use http_response::{
    Connection, MemoryFor, Response, answer, closing, feed_head, feed_last, no_memory, reply,
    service_unavailable,
};
use queries::{Answer, AnswerKind, Query, QueryKind};
use session_api::Unavailable;
use std::alloc::Global;
use std::test::Fail;
use streams::Stream;
use streams::scripted::ScriptedWriter;

/// The text that is written, or `none` where there is no response.
fn text_of(alloc: Global, response: Option<&Response>) -> Result<String, Fail> {
    let Some(response) = response else {
        return Ok(String::from_str(alloc, "none")?);
    };
    let mut writer = Stream::new(ScriptedWriter {
        taken: Vec::new(alloc),
        script: &[],
    });
    response.write(&mut writer)?;
    let taken = writer.into_inner().taken;
    Ok(String::from_utf8(taken)?)
}

/// The response to the command of one line in a form, with the reply of another.
pub(crate) fn reply_told(
    alloc: Global,
    place: &str,
    form: &str,
    command: &str,
    told: &str,
) -> Result<String, Fail> {
    let place = place.parse::<u64>()?;
    let form = form_named(form)?;
    let asked = entry_of(alloc, command)?;
    let told = entry_of(alloc, told)?;
    let response = reply(
        alloc,
        place,
        Connection::Open,
        form,
        &asked.command,
        &told.reply,
    )?;
    text_of(alloc, response.as_ref())
}

fn form_named(name: &str) -> Result<Form, Fail> {
    match name {
        "put" => Ok(Form::Put),
        "delete" => Ok(Form::Delete),
        "whole" => Ok(Form::Whole),
        _ => Err("no such form".into()),
    }
}

/// The response to a query that is answered by a limit of 1.
pub(crate) fn answer_told(alloc: Global, query: &str) -> Result<String, Fail> {
    let query = Query::new(kind_named(query)?);
    let told = Answer::new(AnswerKind::Limit(1));
    let response = answer(alloc, 1, Connection::Open, &query, &told)?;
    text_of(alloc, response.as_ref())
}

fn kind_named(name: &str) -> Result<QueryKind, Fail> {
    match name {
        "info" => Ok(QueryKind::Info),
        "all_documents" => Ok(QueryKind::AllDocuments),
        "limit" => Ok(QueryKind::RevsLimit),
        _ => Err("no such query".into()),
    }
}

/// The response of this name, at a place of the history.
pub(crate) fn response_told(alloc: Global, place: &str, name: &str) -> Result<String, Fail> {
    let place = place.parse::<u64>()?;
    if let Some(fault) = fault_named(name) {
        return text_of(alloc, Some(&closing(place, fault)));
    }
    if let Some(why) = why_named(name) {
        return text_of(
            alloc,
            Some(&service_unavailable(place, Connection::Open, why)),
        );
    }
    let (extent, wanted) = wanted_named(name)?;
    text_of(alloc, Some(&no_memory(place, extent, wanted)))
}

fn fault_named(name: &str) -> Option<FramingFault> {
    match name {
        "head" => Some(FramingFault::Head),
        "large_head" => Some(FramingFault::LargeHead),
        "coding" => Some(FramingFault::TransferEncoding),
        "length" => Some(FramingFault::ContentLength),
        "large_body" => Some(FramingFault::LargeBody),
        _ => None,
    }
}

fn why_named(name: &str) -> Option<Unavailable> {
    match name {
        "busy" => Some(Unavailable::Busy),
        "lost" => Some(Unavailable::Lost),
        "full" => Some(Unavailable::Full),
        "behind" => Some(Unavailable::Behind),
        "overrun" => Some(Unavailable::Overrun),
        "entry" => Some(Unavailable::Entry),
        "journal" => Some(Unavailable::Journal),
        _ => None,
    }
}

fn wanted_named(name: &str) -> Result<(Extent, MemoryFor), Fail> {
    match name {
        "memory_for_call" => Ok((Extent::Whole, MemoryFor::Call)),
        "memory_for_reply" => Ok((Extent::Whole, MemoryFor::Reply)),
        "memory_for_head" => Ok((Extent::HeadAlone, MemoryFor::Call)),
        _ => Err("no such response".into()),
    }
}

/// The head of a feed.
pub(crate) fn feed_head_told(alloc: Global, place: &str) -> Result<String, Fail> {
    let head = feed_head(place.parse::<u64>()?);
    Ok(String::from_str(alloc, head.as_str())?)
}

/// The last line of a feed.
pub(crate) fn feed_last_told(alloc: Global, last_seq: &str, pending: &str) -> Result<String, Fail> {
    let line = feed_last(last_seq.parse::<u64>()?, pending.parse::<u64>()?);
    Ok(String::from_str(alloc, line.as_str())?)
}
