//! The tokens of packets: three numbers each.
ghost use Rattle.std.specs.Prelude.{◌≡◌, true, option_map, Result};
ghost use Rattle.qs_calls.specs.Tokens.{joined};
ghost use Rattle.qs_calls.specs.declared.token.TokenFault.{TokenFault};
ghost use Rattle.qs_machine.specs.Alone.{TokenAckedStep, TokenLostStep, token_of};
ghost use Rattle.qs_c.specs.Statuses.{Called, Asked, Invalid, token_status, status_of, found};
ghost use Rattle.qs_c.specs.Structs.{numbers_of, token_in};

use crate::answers::{INVALID, NONE, OK, of_token};
use crate::handle::Handle;
use crate::structs::GvToken;
use crate::thing::Thing;
use std::alloc::Global;

#[unsafe(no_mangle)]
pub extern "C" fn gvp_token_of(
    alloc: Global,
    end: &mut Handle,
    number: u64,
    token: &mut GvToken,
) -> u32
    ensures { Asked end.old.cell.value end.new.cell.value true (Invalid result token.old token.new) (λ e. (result ≡ 0) × (token.new ≡ numbers_of (token_of e number))) }
{
    let Some(thing) = end.take(alloc) else {
        return INVALID;
    };
    *token = GvToken::of(thing.end.token_of(number));
    end.put(thing);
    OK
}

#[unsafe(no_mangle)]
pub extern "C" fn gvp_token_and(token: &GvToken, next: &GvToken, both: &mut GvToken) -> u32
    ensures { (result, both.new) ≡ found (option_map numbers_of (joined (token_in token.now) (token_in next.now))) both.old }
{
    match token.token().and(next.token()) {
        Some(one) => {
            *both = GvToken::of(one);
            OK
        }
        None => NONE,
    }
}

#[unsafe(no_mangle)]
pub extern "C" fn gvp_token_acked(alloc: Global, end: &mut Handle, token: &GvToken) -> u32
    ensures { Called end.old.cell.value end.new.cell.value true (result ≡ 1) (λ e f. (a : Result (Unit {0}) TokenFault) × (result ≡ status_of token_status a) × TokenAckedStep e (token_in token.now) a f) }
{
    let Some(mut thing) = end.take(alloc) else {
        return INVALID;
    };
    let status = thing.acked(token);
    end.put(thing);
    status
}

#[unsafe(no_mangle)]
pub extern "C" fn gvp_token_lost(alloc: Global, end: &mut Handle, token: &GvToken) -> u32
    ensures { Called end.old.cell.value end.new.cell.value true (result ≡ 1) (λ e f. (a : Result (Unit {0}) TokenFault) × (result ≡ status_of token_status a) × TokenLostStep e (token_in token.now) a f) }
{
    let Some(mut thing) = end.take(alloc) else {
        return INVALID;
    };
    let status = thing.lost(token);
    end.put(thing);
    status
}

impl Thing {
    pub(crate) fn acked(&mut self, token: &GvToken) -> u32
        ensures { (a : Result (Unit {0}) TokenFault) × (result ≡ status_of token_status a) × TokenAckedStep self.old (token_in token.now) a self.new }
    {
        of_token(self.end.acked(token.token()))
    }

    pub(crate) fn lost(&mut self, token: &GvToken) -> u32
        ensures { (a : Result (Unit {0}) TokenFault) × (result ≡ status_of token_status a) × TokenLostStep self.old (token_in token.now) a self.new }
    {
        of_token(self.end.lost(token.token()))
    }
}
