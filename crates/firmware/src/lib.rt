// The functions that firmware in C calls. A slice passes as a pointer and a length. Each answers one number: a length, a
// key or a kind if it is not negative, and minus the number of the refusal if it is.

#![tactic(auto)]

ghost use Rattle.std.specs.Prelude.{◌≡◌, ◌^◌, ◌<◌, IfOk, None, Err};
ghost use Rattle.branch.specs.BranchReply.{branch_reply, branch_read};
ghost use Rattle.outgoing.specs.Numbers.{branch_refusal, branch_frame, destination_refusal, mute_frame, un_mute_frame, key_refusal, info_frame, start_refusal, start_frame, search_refusal, program_refusal, program_bytes};
ghost use Rattle.firmware.specs.Coded.{coded, reply_kind, reply_size};
ghost use Rattle.dali.specs.Frame.{frame_bytes};
ghost use Rattle.rdm.specs.ReadReply.{reply_at};
ghost use Rattle.dali.specs.Search.{search_bytes};
ghost use Rattle.octets.specs.Writers.{answered, left_in};

use branch::read_branch_reply;
use dali::frame::Frame;
use outgoing::Outgoing;
use rdm::read_reply::{Expected, read_reply};
use refusals::Refusal;

fn minus(refusal: Refusal) -> i64
    ensures { result ≡ coded (Err refusal) }
{
    -i64::from(refusal.number())
}

fn code(res: Result<usize, Refusal>) -> i64
    requires { IfOk res (λ n. n < 2 ^ 63) }
    ensures { result ≡ coded res }
{
    res.map_or_else(minus, |n| n as i64)
}

// One function for each name that C calls, and each with numbers and slices alone: C knows no other types.

// The length of the branch question, 38; refusals 1, 2, 4.
#[unsafe(no_mangle)]
pub extern "C" fn rdm_write_branch(transaction: u8, lo: u64, hi: u64, buf: &mut [u8]) -> i64
    ensures answer { result ≡ coded (answered (branch_refusal lo hi) (branch_frame transaction lo hi) buf.old) }
    ensures after { buf.new ≡ left_in (branch_refusal lo hi) (branch_frame transaction lo hi) buf.old }
{
    code(Outgoing::Branch {
        transaction,
        lo,
        hi,
    }
    .write(buf))
}

// The length of the mute question, 26; FFFFFFFFFFFF is to all. Refusals 1, 4.
#[unsafe(no_mangle)]
pub extern "C" fn rdm_write_mute(transaction: u8, to: u64, buf: &mut [u8]) -> i64
    ensures answer { result ≡ coded (answered (destination_refusal to) (mute_frame transaction to) buf.old) }
    ensures after { buf.new ≡ left_in (destination_refusal to) (mute_frame transaction to) buf.old }
{
    code(Outgoing::Mute { transaction, to }.write(buf))
}

// The length of the un-mute question, 26; FFFFFFFFFFFF is to all. Refusals 1, 4.
#[unsafe(no_mangle)]
pub extern "C" fn rdm_write_un_mute(transaction: u8, to: u64, buf: &mut [u8]) -> i64
    ensures answer { result ≡ coded (answered (destination_refusal to) (un_mute_frame transaction to) buf.old) }
    ensures after { buf.new ≡ left_in (destination_refusal to) (un_mute_frame transaction to) buf.old }
{
    code(Outgoing::UnMute { transaction, to }.write(buf))
}

// The length of the device info question, 26; refusals 1, 4.
#[unsafe(no_mangle)]
pub extern "C" fn rdm_write_device_info(transaction: u8, key: u64, buf: &mut [u8]) -> i64
    ensures answer { result ≡ coded (answered (key_refusal key) (info_frame transaction key) buf.old) }
    ensures after { buf.new ≡ left_in (key_refusal key) (info_frame transaction key) buf.old }
{
    code(Outgoing::DeviceInfo { transaction, key }.write(buf))
}

// The length of the start address question, 28; refusals 1, 3, 4.
#[unsafe(no_mangle)]
pub extern "C" fn rdm_write_start_address(
    transaction: u8,
    key: u64,
    slot: u32,
    buf: &mut [u8],
) -> i64
    ensures answer { result ≡ coded (answered (start_refusal key slot) (start_frame transaction key slot) buf.old) }
    ensures after { buf.new ≡ left_in (start_refusal key slot) (start_frame transaction key slot) buf.old }
{
    code(Outgoing::StartAddress {
        transaction,
        key,
        slot,
    }
    .write(buf))
}

// 0 for a yes, 2 for a no; refusals 5, 6, 8, 9. Class, parameter ID, transaction number and key are the question's.
#[unsafe(no_mangle)]
pub extern "C" fn rdm_reply_kind(
    class: u8,
    pid: u16,
    transaction: u8,
    key: u64,
    bytes: &[u8],
) -> i64
    ensures { result ≡ coded (reply_kind (reply_at (record { class = class; pid = pid; transaction = transaction; key = key }) bytes.now)) }
{
    let expected = Expected {
        class,
        pid,
        transaction,
        key,
    };
    read_reply(expected, bytes).map_or_else(minus, |reply| i64::from(reply.response.code()))
}

// How many bytes of data the reply has, from byte 24 on; refusals 5, 6, 8, 9.
#[unsafe(no_mangle)]
pub extern "C" fn rdm_reply_size(
    class: u8,
    pid: u16,
    transaction: u8,
    key: u64,
    bytes: &[u8],
) -> i64
    ensures { result ≡ coded (reply_size (reply_at (record { class = class; pid = pid; transaction = transaction; key = key }) bytes.now)) }
{
    let expected = Expected {
        class,
        pid,
        transaction,
        key,
    };
    read_reply(expected, bytes).map_or_else(minus, |reply| reply.payload.len() as i64)
}

// The length of a branch reply, 24; refusals 1, 4.
#[unsafe(no_mangle)]
pub extern "C" fn rdm_write_branch_reply(key: u64, buf: &mut [u8]) -> i64
    ensures answer { result ≡ coded (answered (key_refusal key) (branch_reply key) buf.old) }
    ensures after { buf.new ≡ left_in (key_refusal key) (branch_reply key) buf.old }
{
    code(Outgoing::BranchReply { key }.write(buf))
}

// The number of the key whose branch reply the bytes are; refusals 5, 6, 7, 8, 1.
#[unsafe(no_mangle)]
pub extern "C" fn rdm_read_branch_reply(bytes: &[u8]) -> i64
    ensures { result ≡ coded (branch_read bytes.now) }
{
    read_branch_reply(bytes).map_or_else(minus, |key| key.number() as i64)
}

// The length of A100, 2; refusal 4.
#[unsafe(no_mangle)]
pub extern "C" fn dali_write_terminate(buf: &mut [u8]) -> i64
    ensures answer { result ≡ coded (answered None (frame_bytes Frame.Terminate) buf.old) }
    ensures after { buf.new ≡ left_in None (frame_bytes Frame.Terminate) buf.old }
{
    code(Frame::Terminate.write(buf))
}

// The length of A500, 2; refusal 4.
#[unsafe(no_mangle)]
pub extern "C" fn dali_write_initialise(buf: &mut [u8]) -> i64
    ensures answer { result ≡ coded (answered None (frame_bytes Frame.Initialise) buf.old) }
    ensures after { buf.new ≡ left_in None (frame_bytes Frame.Initialise) buf.old }
{
    code(Frame::Initialise.write(buf))
}

// The length of A900, 2; refusal 4.
#[unsafe(no_mangle)]
pub extern "C" fn dali_write_compare(buf: &mut [u8]) -> i64
    ensures answer { result ≡ coded (answered None (frame_bytes Frame.Compare) buf.old) }
    ensures after { buf.new ≡ left_in None (frame_bytes Frame.Compare) buf.old }
{
    code(Frame::Compare.write(buf))
}

// The length of AB00, 2; refusal 4.
#[unsafe(no_mangle)]
pub extern "C" fn dali_write_withdraw(buf: &mut [u8]) -> i64
    ensures answer { result ≡ coded (answered None (frame_bytes Frame.Withdraw) buf.old) }
    ensures after { buf.new ≡ left_in None (frame_bytes Frame.Withdraw) buf.old }
{
    code(Frame::Withdraw.write(buf))
}

// The length of BB00, 2; refusal 4.
#[unsafe(no_mangle)]
pub extern "C" fn dali_write_query_short_address(buf: &mut [u8]) -> i64
    ensures answer { result ≡ coded (answered None (frame_bytes Frame.QueryShortAddress) buf.old) }
    ensures after { buf.new ≡ left_in None (frame_bytes Frame.QueryShortAddress) buf.old }
{
    code(Frame::QueryShortAddress.write(buf))
}

// The length of B7FF, 2; refusal 4.
#[unsafe(no_mangle)]
pub extern "C" fn dali_write_delete(buf: &mut [u8]) -> i64
    ensures answer { result ≡ coded (answered None (frame_bytes Frame.Delete) buf.old) }
    ensures after { buf.new ≡ left_in None (frame_bytes Frame.Delete) buf.old }
{
    code(Frame::Delete.write(buf))
}

// The length of the three frames that set the search address, 6; refusals 1, 4.
#[unsafe(no_mangle)]
pub extern "C" fn dali_write_search(key: u64, buf: &mut [u8]) -> i64
    ensures answer { result ≡ coded (answered (search_refusal key) (search_bytes key) buf.old) }
    ensures after { buf.new ≡ left_in (search_refusal key) (search_bytes key) buf.old }
{
    code(Outgoing::Search { key }.write(buf))
}

// The length of B7 with an address, 2; refusals 3, 4.
#[unsafe(no_mangle)]
pub extern "C" fn dali_write_program(slot: u32, buf: &mut [u8]) -> i64
    ensures answer { result ≡ coded (answered (program_refusal slot) (program_bytes slot) buf.old) }
    ensures after { buf.new ≡ left_in (program_refusal slot) (program_bytes slot) buf.old }
{
    code(Outgoing::Program { slot }.write(buf))
}
