//! Bytes and numbers appended to a Vec that has the room for them.
ghost use Rattle.std.specs.Prelude.{◌+◌, ◌≤◌, length, vec_len, vec_capacity};
ghost use Rattle.bw_model.specs.Bytes.{le16, le32, le64};
ghost use Rattle.bw_layout.specs.AppendedBytes.{Gains};

pub(crate) fn push_bytes(out: &mut Vec<u8>, bytes: &[u8])
    requires { vec_len out.old + length bytes.now ≤ vec_capacity out.old }
    ensures { Gains bytes.now (length bytes.now) out.old out.new }
{
    out.extend_from_slice(bytes).unwrap();
}

pub(crate) fn push_u16(out: &mut Vec<u8>, n: u16)
    requires { vec_len out.old + 2 ≤ vec_capacity out.old }
    ensures { Gains (le16 n) 2 out.old out.new }
{
    push_bytes(out, &n.to_le_bytes());
}

pub(crate) fn push_u32(out: &mut Vec<u8>, n: u32)
    requires { vec_len out.old + 4 ≤ vec_capacity out.old }
    ensures { Gains (le32 n) 4 out.old out.new }
{
    push_bytes(out, &n.to_le_bytes());
}

pub(crate) fn push_u64(out: &mut Vec<u8>, n: u64)
    requires { vec_len out.old + 8 ≤ vec_capacity out.old }
    ensures { Gains (le64 n) 8 out.old out.new }
{
    push_bytes(out, &n.to_le_bytes());
}
