// The writer of control packets.
#![tactic(auto)]

mod payloads;

ghost use Rattle.wire.specs.Writing.{Writes};
ghost use Rattle.control_write.specs.Image.{control_image, command_bad, WritesBehind};

use control::Command;
use wire::Refusal;

// A command's packet. Its parts name bytes of `bytes`.
pub fn write_control(c: Command, bytes: &[u8], out: &mut [u8]) -> Result<usize, Refusal>
    ensures { Writes (command_bad c bytes.now) (control_image c bytes.now) out.old result out.new }
{
    write_behind(&bytes[0..0], 65535, c, bytes, out)
}

// A command's packet behind the bytes of `front`, its payload at most `limit` bytes. Its parts name bytes of `bytes`.
pub fn write_behind(
    front: &[u8],
    limit: usize,
    c: Command,
    bytes: &[u8],
    out: &mut [u8],
) -> Result<usize, Refusal>
    ensures { WritesBehind front.now limit c bytes.now out.old result out.new }
{
    match c {
        Command::Setup(f) => payloads::setup(front, limit, f, bytes, out),
        Command::FactoryReset => payloads::factory_reset(front, limit, bytes, out),
        Command::GetState(f) => payloads::get_state(front, limit, f, bytes, out),
        Command::SetState(f) => payloads::set_state(front, limit, f, bytes, out),
        Command::BootloaderVersion => payloads::none(front, limit, 4, bytes, out),
        Command::UicrData => payloads::none(front, limit, 5, bytes, out),
        Command::IbeaconConfig(f) => payloads::ibeacon_config(front, limit, f, bytes, out),
        Command::Reset => payloads::none(front, limit, 10, bytes, out),
        Command::GotoDfu => payloads::none(front, limit, 11, bytes, out),
        Command::NoOperation => payloads::none(front, limit, 12, bytes, out),
        Command::Disconnect => payloads::none(front, limit, 13, bytes, out),
        Command::Switch(value) => payloads::switch(front, limit, value, bytes, out),
        Command::MultiSwitch(f) => payloads::multi_switch(front, limit, f, bytes, out),
        Command::RegisterTrackedDevice(f) => {
            payloads::register_tracked_device(front, limit, f, bytes, out)
        }
        Command::TrackedDeviceHeartbeat(f) => {
            payloads::tracked_device_heartbeat(front, limit, f, bytes, out)
        }
        Command::GetPresence => payloads::none(front, limit, 72, bytes, out),
        Command::GetUptime => payloads::none(front, limit, 80, bytes, out),
    }
}
