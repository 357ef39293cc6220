//! Pages by their numbers.

ghost use Rattle.std.specs.Prelude.{◌≡◌, ◌<◌, ◌^◌};
ghost use Rattle.spur_addr.specs.Address.{page_of, page_address};

use spur_addr::GlobalAddr;

/// The first byte of the page with this number.
pub(crate) fn page_address(page: u32) -> GlobalAddr
    requires { page < 2 ^ 26 }
    ensures { result ≡ page_address page }
{
    match GlobalAddr::of((page as u64) << 12) {
        Some(at) => at,
        None => unreachable!(),
    }
}

/// The first byte of the page that an address is in.
pub(crate) fn page_start(at: GlobalAddr) -> GlobalAddr
    ensures { result ≡ page_address (page_of at) }
{
    page_address(at.page())
}
