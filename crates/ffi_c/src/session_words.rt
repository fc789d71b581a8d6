// The session program over words.
ghost use Rattle.std.specs.Prelude.{◌≡◌};
ghost use Rattle.ffi.specs.SessionWords.{answered, session_on};

#[unsafe(no_mangle)]
pub extern "C" fn nt7508_session(
    text: &[u8],
    state: &mut [u64],
    ram: &mut [u8],
    icons: &mut [u8],
    listing: &mut [u8],
    ended: &mut [u64; 2],
) -> u64
    ensures { answered result state.new ram.new icons.new listing.new ended.new ≡ session_on text.now state.old ram.old icons.old listing.old ended.old }
{
    ffi::session_words::nt7508_session(text, state, ram, icons, listing, ended)
}
