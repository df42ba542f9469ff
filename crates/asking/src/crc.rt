// The common checksum CRC-32 of a list of bytes.

const POLYNOMIAL: u32 = 0xEDB88320;

fn take_bit(sum: u32) -> u32 {
    if sum % 2 == 1 {
        sum / 2 ^ POLYNOMIAL
    } else {
        sum / 2
    }
}

fn take_byte(sum: u32, byte: u8) -> u32 {
    (0..u8::BITS).fold(sum ^ u32::from(byte), |sum, _| take_bit(sum))
}

pub fn of_list(list: &[u8]) -> u32 {
    !list
        .iter()
        .fold(u32::MAX, |sum, byte| take_byte(sum, *byte))
}
