// A network with more components.
ghost use Rattle.std.specs.Prelude.{IfOk, IfSome};
ghost use Rattle.model_text.specs.ReadBack.{IsAsRead};
ghost use Rattle.refinement.specs.Refinement.{IsRefinementOf};

use crate::additions::{Addition, plan};
use crate::drafting::{MOST_BYTES, draft};
use crate::follower::Follower;
use crate::rule::Rule;
use crate::testing::is_refinement;
use des_base::Memory;
use des_net::Network;
use model_text::{ModelRefusal, read_model};
use std::alloc::Global;

/// The network with more components, as the rule wants them; none if it stays as it is, since none is wanted, or since the text
/// would be longer than a model's may be.
///
/// Of what is wanted, what few events move comes first, up to 1,000 components, 50,000 transitions and 16 parts of each event;
/// what doesn't fit is left out. Whatever the rule answers, what is given is a refinement. It is as a network that was read
/// (`as_read`), so the text that is printed of it reads back as it.
pub fn refine<R: Rule>(alloc: Global, net: &Network, rule: &R) -> Result<Option<Network>, Memory>
    ensures refinement { IfOk result (λ finer. IfSome finer (λ fine. IsRefinementOf fine net.now)) }
    ensures as_read { IfOk result (λ finer. IfSome finer IsAsRead) }
{
    let plan = plan(alloc, net, rule)?;
    let followers = followers_of(alloc, plan.additions.as_slice())?;
    if followers.is_empty() {
        return Ok(None);
    }
    match draft(alloc, net, &plan)? {
        Some(text) => read_refinement(alloc, net, text.as_slice(), followers.as_slice()),
        None => Ok(None),
    }
}

fn followers_of(alloc: Global, additions: &[Addition]) -> Result<Vec<Follower>, Memory> {
    let mut followers = Vec::new(alloc);
    for addition in additions {
        if addition.chosen {
            followers.push(addition.follower)?;
        }
    }
    Ok(followers)
}

// The network of the text, if it is a refinement by these further components.
fn read_refinement(
    alloc: Global,
    net: &Network,
    text: &[u8],
    followers: &[Follower],
) -> Result<Option<Network>, Memory>
    ensures refinement { IfOk result (λ finer. IfSome finer (λ fine. IsRefinementOf fine net.now)) }
    ensures as_read { IfOk result (λ finer. IfSome finer IsAsRead) }
{
    if text.len() > MOST_BYTES {
        return Ok(None);
    }
    match read_model(alloc, text) {
        Ok(fine) => keep_refinement(alloc, fine, net, followers),
        Err(ModelRefusal::Fault(_)) => Ok(None),
        Err(ModelRefusal::Memory) => Err(Memory),
    }
}

// The finer network, if it is a refinement.
fn keep_refinement(
    alloc: Global,
    fine: Network,
    net: &Network,
    followers: &[Follower],
) -> Result<Option<Network>, Memory>
    requires { IsAsRead fine }
    ensures refinement { IfOk result (λ finer. IfSome finer (λ fine. IsRefinementOf fine net.now)) }
    ensures as_read { IfOk result (λ finer. IfSome finer IsAsRead) }
{
    if is_refinement(alloc, &fine, net, followers)? {
        Ok(Some(fine))
    } else {
        Ok(None)
    }
}
