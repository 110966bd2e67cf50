// Device locations (10.2, val; 12.3, write; 01): even addresses from -8192 to -2, in a page of 8,192 bytes.
ghost use Rattle.std.specs.Prelude.{◌≡◌, length};
ghost use Rattle.words.specs.Numbers.{int_of};
ghost use Rattle.words.specs.Values.{outcome_of};
ghost use Rattle.words.specs.Devices.{is_device};
ghost use Rattle.words.specs.Pages.{read_device, write_device, page_with};

use super::memory::{get_at, put_at};
use super::numbers::integer;
use super::values::Failure;

#[tactic(auto, using(crate::proofs::DeviceLaws::devices, crate::proofs::Arithmetic::conversions))]
fn is_device(address: u16) -> bool
    ensures { result ≡ is_device (int_of address) }
{
    address % 2 == 0 && (-8192..=-2).contains(&integer(address))
}

// 10.2, val. The word stands at byte address + 8,192 of the page.
#[tactic(auto, using(crate::proofs::DeviceLaws::devices))]
pub fn read_device(page: &[u8], address: u16) -> Result<u16, Failure>
    requires { length page.now ≡ 8192 }
    ensures { outcome_of result ≡ read_device page.now address }
{
    if is_device(address) {
        Ok(get_at(page, usize::from(address) - 57344))
    } else {
        Err(Failure::DeviceAddress)
    }
}

// 12.3. Answers the word written.
#[tactic(auto, using(crate::proofs::DeviceLaws::devices))]
pub fn write_device(page: &mut [u8], address: u16, v: u16) -> Result<u16, Failure>
    requires { length page.old ≡ 8192 }
    ensures answer { outcome_of result ≡ write_device address v }
    ensures page { page.new ≡ page_with page.old address v }
{
    if is_device(address) {
        put_at(page, usize::from(address) - 57344, v);
        Ok(v)
    } else {
        Err(Failure::DeviceAddress)
    }
}
