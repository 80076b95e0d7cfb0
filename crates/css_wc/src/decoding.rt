ghost use Rattle.std.specs.Prelude.{◌≡◌, ◌≤◌, ◌+◌, length, drop, slice_set, IfOk};
ghost use Rattle.css_model.specs.Wire.{decoded, encoded, fields, stamp_in, field_fault};
ghost use Rattle.css_wc.specs.Datagrams.{HasNoFault};

use byteorder::{BigEndian, ByteOrder};
use css_model::{Message, Stamp, WcFault};

const MESSAGE_LENGTH: usize = 32;

const LAST_MESSAGE_TYPE: u8 = 3;

const MAX_PRECISION: i8 = 30;

const MAX_ERROR: u32 = 25_600_000;

const SECOND: u32 = 1_000_000_000;

/// Reads a datagram of CSS-WC. One that isn't valid is refused with the first of these faults:
///
/// 1. `Length`: there aren't exactly 32 bytes.
/// 2. `Version`: the first byte isn't 0.
/// 3. `MessageType`: it is above 3.
/// 4. `Precision`: the exponent is above 30.
/// 5. `Error`: max_freq_error is above 25,600,000 units of 1/256 ppm.
/// 6. `Nanoseconds`: those of the receive or of the transmit time are a second or more.
///
/// The last three are tested of answers alone, which are the types 1 to 3. The reserved byte and the originate time may
/// hold anything. `encode` writes a message that was read as the same bytes, with a reserved byte of 0.
#[tactic(auto, unfolding(css_model::specs::Wire::fault, css_model::specs::Wire::fields))]
pub fn decode(bytes: &[u8]) -> Result<Message, WcFault>
    ensures value { result ≡ decoded bytes.now }
    ensures valid { IfOk result HasNoFault }

    // The byte at 3 is the reserved one.
    ensures written_back { IfOk result (λ message. encoded message ≡ slice_set bytes.now 3 0) }
{
    if bytes.len() != MESSAGE_LENGTH {
        return Err(WcFault::Length);
    }
    if bytes[0] != 0 {
        return Err(WcFault::Version);
    }
    if bytes[1] > LAST_MESSAGE_TYPE {
        return Err(WcFault::MessageType);
    }
    let message = fields_of(bytes);
    match fault_of(&message) {
        None => Ok(message),
        Some(fault) => Err(fault),
    }
}

#[tactic(auto, unfolding(css_model::specs::Wire::fields))]
fn fields_of(bytes: &[u8]) -> Message
    requires { length bytes.now ≡ 32 }
    ensures { result ≡ fields bytes.now }
{
    Message {
        message_type: bytes[1],
        precision: bytes[2].cast_signed(),
        error: BigEndian::read_u32(from(bytes, 4)),
        originate: leading_stamp(from(bytes, 8)),
        receive: leading_stamp(from(bytes, 16)),
        transmit: leading_stamp(from(bytes, 24)),
    }
}

fn leading_stamp(bytes: &[u8]) -> Stamp
    requires { 8 ≤ length bytes.now }
    ensures { result ≡ stamp_in bytes.now }
{
    Stamp {
        seconds: BigEndian::read_u32(bytes),
        nanoseconds: BigEndian::read_u32(from(bytes, 4)),
    }
}

fn from(bytes: &[u8], start: usize) -> &[u8]
    requires { start ≤ length bytes.now }
    ensures value { result.now ≡ drop start bytes.now }
    ensures left { length result.now + start ≡ length bytes.now }
{
    &bytes[start..]
}

fn fault_of(message: &Message) -> Option<WcFault>
    ensures { result ≡ field_fault message.now }
{
    if message.message_type == 0 {
        None
    } else if message.precision > MAX_PRECISION {
        Some(WcFault::Precision)
    } else if message.error > MAX_ERROR {
        Some(WcFault::Error)
    } else if message.receive.nanoseconds < SECOND && message.transmit.nanoseconds < SECOND {
        None
    } else {
        Some(WcFault::Nanoseconds)
    }
}
