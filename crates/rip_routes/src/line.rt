//! What a line says.

ghost use Rattle.std.specs.Prelude.{◌≡◌, ℕ, ◌<◌, Err, IfErr, IfOk, IfSome, List, Some, None, unwrap_or, length};
ghost use Rattle.rip_wire.specs.Prefix.{Block, prefix_in};
ghost use Rattle.rip_routes.specs.RouteLines.{direct_in, hop_in, is_silent, is_on_link, link_in, metric_in, over_in, router_in, told_alone, told_by, told_by_bare, told_by_fields, told_hop, told_of_router, told_with};
ghost use Rattle.rip_routes.specs.Tolds.{IsTold};
ghost use Rattle.rip_routes.specs.Words.{AreWords};

use crate::error::RoutesCause;
use crate::next_hop::NextHop;
use crate::told::{Told, Way};
use crate::words::{Words, before_comma, first_of, split_line};
use rip_plan::Plan;
use rip_wire::{Address, Metric, Prefix, laws};

/// Whether a line says nothing whose first field this is.
fn is_silent(first: &[u8]) -> bool
    ensures { result ≡ is_silent first.now }
{
    first.starts_with(b"#".as_slice())
        || first == b"routes:".as_slice()
        || first == b"expect:".as_slice()
}

/// The router of a name.
fn router_in(plan: &Plan, name: &[u8]) -> Option<usize>
    ensures { result ≡ router_in plan.now name.now }
{
    plan.lawful();
    laws::names();
    match str::from_utf8(name) {
        Ok(text) => plan.router_named(text),
        Err(_) => None,
    }
}

/// The link of a name.
fn link_in(plan: &Plan, name: &[u8]) -> Option<usize>
    ensures { result ≡ link_in plan.now name.now }
{
    plan.lawful();
    laws::names();
    match str::from_utf8(name) {
        Ok(text) => plan.link_named(text),
        Err(_) => None,
    }
}

/// The prefix of a text.
fn prefix_in(text: &[u8]) -> Option<Prefix>
    ensures { result ≡ prefix_in text.now }
{
    laws::prefix_texts();
    match str::from_utf8(text) {
        Ok(text) => Prefix::parse(text),
        Err(_) => None,
    }
}

/// The metric of a text.
fn metric_in(text: &[u8]) -> Option<Metric>
    ensures { result ≡ metric_in text.now }
{
    match text {
        [a] if b'1' <= *a && *a <= b'9' => Metric::new(u32::from(*a - b'0')),
        [b'1', b] if b'0' <= *b && *b <= b'6' => Metric::new(u32::from(*b - b'0') + 10),
        _ => None,
    }
}

/// Whether a router is on a link.
fn is_on(plan: &Plan, router: usize, link: usize) -> bool
    requires { router < length plan.now.routers }
    ensures { result ≡ is_on_link plan.now router link }
{
    plan.lawful();
    plan.is_on(router, link)
}

/// The metric at which a router has a prefix itself.
fn direct_in(plan: &Plan, router: usize, prefix: Prefix) -> Option<u8>
    ensures { result ≡ direct_in plan.now router prefix }
{
    plan.lawful();
    plan.direct(router, prefix)
}

/// The metric at which a router has a prefix itself, or 1 where it has none.
fn metric_here(plan: &Plan, router: usize, prefix: Prefix) -> Metric
    ensures { result ≡ unwrap_or (direct_in plan.now router prefix) 1 }
{
    plan.lawful();
    let cost = direct_in(plan, router, prefix).unwrap_or(1);
    Metric::new(u32::from(cost)).unwrap()
}

/// What is told by a metric and a way.
fn told_by(router: usize, prefix: Prefix, metric: Metric, way: Way) -> Told
    ensures { result ≡ told_by router prefix metric way }
{
    Told {
        router,
        prefix,
        metric,
        way: if metric.get() == 16 { None } else { Some(way) },
    }
}

/// What a route says of which one word is left.
fn told_alone(
    plan: &Plan,
    router: usize,
    prefix: Prefix,
    word: &[u8],
) -> Result<Option<Told>, RoutesCause>
    ensures { result ≡ told_alone plan.now router prefix word.now }
{
    if word == b"here".as_slice() {
        let metric = metric_here(plan, router, prefix);
        Ok(Some(told_by(router, prefix, metric, Way::Here)))
    } else {
        Err(RoutesCause::Way)
    }
}

/// What a route says of which a metric and a word are left.
fn told_with(
    router: usize,
    prefix: Prefix,
    metric: &[u8],
    word: &[u8],
) -> Result<Option<Told>, RoutesCause>
    ensures { result ≡ told_with router prefix word.now (metric_in metric.now) }
{
    let Some(metric) = metric_in(metric) else {
        return Err(RoutesCause::Metric);
    };
    if word == b"here".as_slice() {
        return Ok(Some(told_by(router, prefix, metric, Way::Here)));
    }
    if word == b"unreachable".as_slice() && metric.get() == 16 {
        return Ok(Some(Told {
            router,
            prefix,
            metric,
            way: None,
        }));
    }
    Err(RoutesCause::Way)
}

/// The next hop over a link of a name, if the router is there.
fn over_in(plan: &Plan, router: usize, name: &[u8]) -> Option<NextHop>
    requires { router < length plan.now.routers }
    ensures { result ≡ over_in plan.now router (link_in plan.now name.now) }
{
    let link = link_in(plan, name)?;
    if is_on(plan, router, link) {
        Some(NextHop::Over(link))
    } else {
        None
    }
}

/// The next hop that a word and a name say.
fn hop_in(plan: &Plan, router: usize, word: &[u8], name: &[u8]) -> Option<NextHop>
    requires { router < length plan.now.routers }
    ensures { result ≡ hop_in plan.now router word.now name.now }
{
    if word == b"over".as_slice() {
        over_in(plan, router, name)
    } else if word == b"via".as_slice() {
        match Address::parse_bytes(name) {
            Some(address) => Some(NextHop::Via(address)),
            None => None,
        }
    } else {
        None
    }
}

/// What a route says of which a metric and two words are left.
fn told_hop(
    plan: &Plan,
    router: usize,
    prefix: Prefix,
    metric: &[u8],
    word: &[u8],
    name: &[u8],
) -> Result<Option<Told>, RoutesCause>
    requires { router < length plan.now.routers }
    ensures { result ≡ told_hop router prefix (metric_in metric.now)
        (hop_in plan.now router word.now name.now) }
{
    let Some(metric) = metric_in(metric) else {
        return Err(RoutesCause::Metric);
    };
    match hop_in(plan, router, word, name) {
        Some(hop) => Ok(Some(told_by(router, prefix, metric, Way::To(hop)))),
        None => Err(RoutesCause::Way),
    }
}

/// The router and the prefix that a route names.
fn place_in(plan: &Plan, router: &[u8], prefix: &[u8]) -> Result<(usize, Prefix), RoutesCause>
    ensures place { IfOk result (λ place. (router_in plan.now router.now ≡ Some place.0)
        × (prefix_in prefix.now ≡ Some place.1)) }
    ensures known { IfOk result (λ place. place.0 < length plan.now.routers) }
    ensures fault { IfErr result (λ cause. (rest : List (List ℕ)) → told_of_router plan.now
        (router_in plan.now router.now) (prefix_in prefix.now) rest ≡ Err cause) }
{
    plan.lawful();
    let Some(router) = router_in(plan, router) else {
        return Err(RoutesCause::Router);
    };
    match prefix_in(prefix) {
        Some(prefix) => Ok((router, prefix)),
        None => Err(RoutesCause::Prefix),
    }
}

/// What a line says by its fields.
fn told_by_words(plan: &Plan, words: &Words<'_>) -> Result<Option<Told>, RoutesCause>
    ensures { (fields : List (List ℕ)) → AreWords fields words.now →
        result ≡ told_by_fields plan.now fields }
{
    match words {
        Words::None | Words::Others(_) => Err(RoutesCause::Fields),
        Words::Three(router, prefix, word) => {
            let (router, prefix) = place_in(plan, router, prefix)?;
            told_alone(plan, router, prefix, word)
        }
        Words::Four(router, prefix, metric, word) => {
            let (router, prefix) = place_in(plan, router, prefix)?;
            told_with(router, prefix, metric, word)
        }
        Words::Five(router, prefix, metric, word, name) => {
            let (router, prefix) = place_in(plan, router, prefix)?;
            told_hop(plan, router, prefix, metric, word, name)
        }
    }
}

/// What a line says, without a carriage return at its end.
pub(crate) fn told_by_line(plan: &Plan, bare: &[u8]) -> Result<Option<Told>, RoutesCause>
    ensures says { result ≡ told_by_bare plan.now bare.now }
    ensures told { IfOk result (λ said. IfSome said (IsTold plan.now)) }
{
    plan.lawful();
    let words = split_line(before_comma(bare));
    match first_of(&words) {
        None => Ok(None),
        Some(first) if is_silent(first) => Ok(None),
        Some(_) => told_by_words(plan, &words),
    }
}
