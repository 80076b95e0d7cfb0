ghost use Rattle.std.specs.Prelude.{◌≡◌, ◌≤◌, ◌+◌, ◌++◌, length, take, drop, Ok};
ghost use Rattle.byteorder.specs.Endian.{big_bytes};
ghost use Rattle.css_model.specs.Wire.{encoded, decoded, stamp_bytes};
ghost use Rattle.css_wc.specs.Datagrams.{HasNoFault};

use byteorder::{BigEndian, ByteOrder};
use css_model::{Message, Stamp};

/// The 32 bytes of a valid datagram of CSS-WC; the reserved byte is 0. `decode` reads the same message back.
pub fn encode(message: &Message) -> [u8; 32]
    requires { HasNoFault message.now }
    ensures bytes { result ≡ encoded message.now }
    ensures read_back { decoded result ≡ Ok message.now }
{
    bytes_of(*message)
}

fn bytes_of(message: Message) -> [u8; 32]
    requires { HasNoFault message }
    ensures bytes { result ≡ encoded message }
    ensures read_back { decoded result ≡ Ok message }
{
    let mut bytes = [0; 32];
    bytes[1] = message.message_type;
    bytes[2] = message.precision.cast_unsigned();
    write_number(&mut bytes, 4, message.error);
    write_stamp(&mut bytes, 8, message.originate);
    write_stamp(&mut bytes, 16, message.receive);
    write_stamp(&mut bytes, 24, message.transmit);
    bytes
}

fn write_stamp(bytes: &mut [u8], start: usize, stamp: Stamp)
    requires { start + 8 ≤ length bytes.old }
    ensures { bytes.new ≡ take start bytes.old ++ stamp_bytes stamp ++ drop (start + 8) bytes.old }
{
    write_number(bytes, start, stamp.seconds);
    write_number(bytes, start + 4, stamp.nanoseconds);
}

fn write_number(bytes: &mut [u8], start: usize, number: u32)
    requires { start + 4 ≤ length bytes.old }
    ensures { bytes.new ≡ take start bytes.old ++ big_bytes 4 number ++ drop (start + 4) bytes.old }
{
    BigEndian::write_u32(&mut bytes[start..start + 4], number);
}
