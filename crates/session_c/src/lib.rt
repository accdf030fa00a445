// The one export for C hosts, over crate session, with its promise.
#![tactic(auto)]

ghost use Rattle.std.specs.Prelude.{◌≡◌};
ghost use Rattle.session.specs.Lines.{Reader};
ghost use Rattle.session.specs.Session.{answered};

// Runs a session and writes the listing, as `session::ingthabor_session` says. include/ingthabor.h declares it.
#[unsafe(no_mangle)]
pub extern "C" fn ingthabor_session(session: &[u8], listing: &mut [u8]) -> u32
    ensures { (R : Reader) → (result, listing.new) ≡ answered R session.now listing.old }
{
    session::ingthabor_session(session, listing)
}
