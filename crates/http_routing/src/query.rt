//! The parameters of a query string.
ghost use Rattle.std.specs.Prelude.{◌≡◌, IfOk, map, option_map};
ghost use Rattle.http_routing.specs.Pairs.{pair_texts, value_in};
ghost use Rattle.http_routing.specs.Query.{parameter, parameters_of};

use form_urlencoded::{decode, raw_pairs};
use std::alloc::{AllocError, Global};
use std::borrow::CowStr;
use std::marker::Model;

/// The parameters of a query string, decoded. What has no escapes is lent.
#[derive(Drop)]
pub struct Parameters<'q> {
    pairs: Vec<(CowStr<'q>, CowStr<'q>)>,
}

impl<'q> Model for Parameters<'q> {
    ghost use Rattle.std.specs.Prelude.{map};
    ghost use Rattle.http_routing.specs.Query.{Parameters};
    ghost use Rattle.http_routing.specs.Pairs.{pair_texts};

    ghost Value = { Parameters };

    ghost view = { λ p. map pair_texts p.pairs.items };
}

impl<'q> Parameters<'q> {
    /// Reads a query string, each name and value once.
    pub fn read(alloc: Global, query: &'q str) -> Result<Parameters<'q>, AllocError>
        ensures { IfOk result (λ parameters. parameters ≡ parameters_of query.now) }
    {
        let pairs = decode_pairs(alloc, query)?;
        Ok(Parameters { pairs })
    }

    /// The value of a parameter, of which the first counts.
    pub fn get(&self, name: &str) -> Option<&str>
        ensures { option_map (λ value. value.now) result ≡ parameter name.now self.now }
    {
        find_value(&self.pairs, name)
    }
}

/// The names and values of a query string.
#[tactic(auto, unfolding(crate::specs::Query::parameters_of))]
fn decode_pairs<'q>(
    alloc: Global,
    query: &'q str,
) -> Result<Vec<(CowStr<'q>, CowStr<'q>)>, AllocError>
    ensures { IfOk result (λ pairs. map pair_texts pairs.items ≡ parameters_of query.now) }
{
    let mut pairs = Vec::new(alloc);
    for (name, value) in raw_pairs(query.as_bytes()) {
        pairs.push((decode(alloc, name)?, decode(alloc, value)?))?;
    }
    Ok(pairs)
}

/// The value of the first pair of this name.
fn find_value<'a>(pairs: &'a [(CowStr<'_>, CowStr<'_>)], name: &str) -> Option<&'a str>
    ensures { option_map (λ value. value.now) result ≡ value_in name.now pairs.now }
{
    pairs
        .iter()
        .find(|pair| pair.0.as_str() == name)
        .map(|pair| pair.1.as_str())
}
