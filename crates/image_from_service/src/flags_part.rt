// The flag bytes of a service, and its prefix as a number.
ghost use Rattle.std.specs.Prelude.{◌≡◌};
ghost use Rattle.image.specs.ImageFlags.{flag_bytes_of, prefix_number};

use image::FlagBytes;
use port::Prefix;
use state::Service;
use state_flags as flags;

pub fn flag_bytes(service: Service) -> FlagBytes
    ensures { result ≡ flag_bytes_of service }
{
    FlagBytes {
        byte17: flags::byte17(service),
        byte18: flags::byte18(service),
        byte96: flags::byte96(service),
        byte97: flags::byte97(service),
    }
}

pub fn prefix_number(prefix: Prefix) -> u8
    ensures { result ≡ prefix_number prefix }
{
    match prefix {
        Prefix::Closed => 0,
        Prefix::E0 => 1,
        Prefix::E1 => 2,
        Prefix::E1Make => 3,
        Prefix::E1Break => 4,
    }
}
