ghost use Rattle.std.specs.Prelude.{◌≡◌, IfOk, IfErr, option_and_then, ◌++◌};
ghost use Rattle.gtm_base.specs.Engines.{HandsOn};
ghost use Rattle.gtm_data.specs.Facts.{fact_of};
ghost use Rattle.replay_engine.specs.Addresses.{address_in, fact_texts, filled, text_if};
ghost use Rattle.replay_engine.specs.RunFault.{IsUnbegun, RefusesOnly, run_refusal};

use crate::RunEnd;
use crate::run_end::refused;
use gtm_base::{Address, EngineEnd, Engines, Text};
use gtm_data::PageFact;
use std::alloc::Global;

/// A fact, with the addresses of a page read by the engines.
pub fn fill<E: Engines>(alloc: Global, fact: PageFact, engines: &mut E) -> Result<PageFact, RunEnd>
    ensures filled { IfOk result (λ made. fact_of made ≡ filled (fact_of fact)) }
    ensures engines { HandsOn run_refusal result (E.state engines.old) (E.state engines.new) }
    ensures asked { IfErr result (RefusesOnly (fact_texts (fact_of fact))) }
    ensures unbegun { IfErr result IsUnbegun }
{
    match fact {
        PageFact::Page {
            url,
            referrer,
            title,
            charset,
            region,
            url_address: _,
            referrer_address: _,
        } => {
            let (url_address, referrer_address) = addresses_of(alloc, &url, &referrer, engines)?;
            Ok(PageFact::Page {
                url,
                referrer,
                title,
                charset,
                region,
                url_address,
                referrer_address,
            })
        },
        other => Ok(other),
    }
}

// The addresses of a page and of its referrer, where there are such texts.
fn addresses_of<E: Engines>(
    alloc: Global,
    url: &Option<Text>,
    referrer: &Option<Text>,
    engines: &mut E,
) -> Result<(Option<Address>, Option<Address>), RunEnd>
    ensures url { IfOk result (λ both. both.0 ≡ option_and_then address_in url.now) }
    ensures referrer { IfOk result (λ both. both.1 ≡ option_and_then address_in referrer.now) }
    ensures engines { HandsOn run_refusal result (E.state engines.old) (E.state engines.new) }
    ensures asked { IfErr result (RefusesOnly (text_if url.now ++ text_if referrer.now)) }
    ensures unbegun { IfErr result IsUnbegun }
{
    let first = address_in(alloc, url, engines)?;
    let second = address_in(alloc, referrer, engines)?;
    Ok((first, second))
}

// The address that a text is, where there is a text.
fn address_in<E: Engines>(
    alloc: Global,
    text: &Option<Text>,
    engines: &mut E,
) -> Result<Option<Address>, RunEnd>
    ensures read { IfOk result (λ found. found ≡ option_and_then address_in text.now) }
    ensures engines { HandsOn run_refusal result (E.state engines.old) (E.state engines.new) }
    ensures asked { IfErr result (RefusesOnly (text_if text.now)) }
    ensures unbegun { IfErr result IsUnbegun }
{
    let Some(text) = text else {
        return Ok(None);
    };
    match engines.address(alloc, text.as_str()) {
        Ok(address) => Ok(address),
        Err(EngineEnd::OutOfMemory) => Err(RunEnd::OutOfMemory),
        Err(EngineEnd::Refused) => Err(refused(alloc, text)),
    }
}
