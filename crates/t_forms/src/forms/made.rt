//! The texts that `examples/forms/make.py` prints.

pub(super) const PROPOSAL: &str = "\
    {\"actions\":[{\"args\":{\"key\":\"ff000102030405060708090a0b0c0d0e0f101112131415161718191a1b1\
    c1d1e1f202122232425262728292a2b2c2d2e2f303132333435363738393a\",\"number\":255},\"name\":\"set\
    _member\"},{\"args\":{\"number\":1},\"name\":\"remove_member\"},{\"args\":{\"secret_digest\":\
    \"090a0b0c0d0e0f101112131415161718191a1b1c1d1e1f202122232425262728\",\"shares\":[{\"digest\":\
    \"030405060708090a0b0c0d0e0f101112131415161718191a1b1c1d1e1f202122\",\"member\":1},{\"digest\"\
    :\"05060708090a0b0c0d0e0f101112131415161718191a1b1c1d1e1f2021222324\",\"member\":3}],\"thresho\
    ld\":2},\"name\":\"set_recovery_threshold\"},{\"args\":{\"node\":\"101112131415161718191a1b1c1\
    d1e1f202122232425262728292a2b2c2d2e2f\"},\"name\":\"transition_node_to_trusted\"},{\"args\":{\
    \"node\":\"202122232425262728292a2b2c2d2e2f303132333435363738393a3b3c3d3e3f\"},\"name\":\"remo\
    ve_node\"},{\"args\":{},\"name\":\"transition_service_to_open\"},{\"args\":{\"rules\":{\"remov\
    e_member\":[1,65534],\"remove_node\":[4,65531],\"set_constitution\":[6,65529],\"set_member\":[\
    0,65535],\"set_recovery_threshold\":[2,65533],\"transition_node_to_trusted\":[3,65532],\"trans\
    ition_service_to_open\":[5,65530]}},\"name\":\"set_constitution\"}]}";

pub(super) const ACK: &str = "{\"op\":\"ack\"}";

pub(super) const PROPOSE: &str = "\
    {\"actions\":[{\"args\":{\"number\":7},\"name\":\"remove_member\"}],\"op\":\"propose\"}";

pub(super) const BALLOT: &str = "\
    {\"op\":\"ballot\",\"proposal_id\":\"05060708090a0b0c0d0e0f101112131415161718191a1b1c1d1e1f202\
    1222324\",\"vote\":true}";

pub(super) const WITHDRAW: &str = "\
    {\"op\":\"withdraw\",\"proposal_id\":\"060708090a0b0c0d0e0f101112131415161718191a1b1c1d1e1f202\
    122232425\"}";

pub(super) const SHARE: &str = "\
    {\"op\":\"share\",\"share\":\"0708090a0b0c0d0e0f101112131415161718191a1b1c1d1e1f20212223242526\
    \"}";

pub(super) const SETTINGS: &str = "\
    {\"dealing\":{\"secret_digest\":\"090a0b0c0d0e0f101112131415161718191a1b1c1d1e1f20212223242526\
    2728\",\"shares\":[{\"digest\":\"0405060708090a0b0c0d0e0f101112131415161718191a1b1c1d1e1f20212\
    223\",\"member\":2}],\"threshold\":1},\"identity\":\"404142434445464748494a4b4c4d4e4f505152535\
    455565758595a5b5c5d5e5f606162636465666768696a6b6c6d6e6f707172737475767778797a7b\",\"members\":\
    [{\"key\":\"0102030405060708090a0b0c0d0e0f101112131415161718191a1b1c1d1e1f20212223242526272829\
    2a2b2c2d2e2f303132333435363738393a3b3c\",\"number\":1},{\"key\":\"02030405060708090a0b0c0d0e0f\
    101112131415161718191a1b1c1d1e1f202122232425262728292a2b2c2d2e2f303132333435363738393a3b3c3d\"\
    ,\"number\":2}],\"nodes\":[{\"endorsement\":\"020304050607\",\"key\":\"0102030405060708090a0b0\
    c0d0e0f101112131415161718191a1b1c1d1e1f202122232425262728292a2b2c2d2e2f303132333435363738\"},{\
    \"endorsement\":\"666768696a6b\",\"key\":\"65666768696a6b6c6d6e6f707172737475767778797a7b7c7d7\
    e7f808182838485868788898a8b8c8d8e8f909192939495969798999a9b9c\"}],\"state\":\"open\"}";

pub(super) const RECOVERY: &str = "\
    {\"identity\":\"4142434445464748494a4b4c4d4e4f505152535455565758595a5b5c5d5e5f6061626364656667\
    68696a6b6c6d6e6f707172737475767778797a7b7c\",\"nodes\":[{\"endorsement\":\"c9cacbcccdce\",\"ke\
    y\":\"c8c9cacbcccdcecfd0d1d2d3d4d5d6d7d8d9dadbdcdddedfe0e1e2e3e4e5e6e7e8e9eaebecedeeeff0f1f2f3\
    f4f5f6f7f8f9fafbfcfdfeff\"}]}";

pub(super) const SERVICE_KEY: &str = "\
    {\"key\":\"030405060708090a0b0c0d0e0f101112131415161718191a1b1c1d1e1f202122232425262728292a2b2\
    c2d2e2f303132333435363738393a3b3c3d3e\",\"kind\":\"service\"}";

pub(super) const MEMBER_KEY: &str = "\
    {\"key\":\"0405060708090a0b0c0d0e0f101112131415161718191a1b1c1d1e1f202122232425262728292a2b2c2\
    d2e2f303132333435363738393a3b3c3d3e3f\",\"kind\":\"member\"}";

pub(super) const NODE_KEY: &str = "\
    {\"key\":\"05060708090a0b0c0d0e0f101112131415161718191a1b1c1d1e1f202122232425262728292a2b2c2d2\
    e2f303132333435363738393a3b3c\",\"kind\":\"node\",\"node\":\"060708090a0b0c0d0e0f1011121314151\
    61718191a1b1c1d1e1f202122232425\"}";

pub(super) const ENDORSED_KEY: &str = "\
    {\"endorsement\":\"fafbfcfdfeff000102030405\",\"key\":\"05060708090a0b0c0d0e0f1011121314151617\
    18191a1b1c1d1e1f202122232425262728292a2b2c2d2e2f303132333435363738393a3b3c\",\"kind\":\"node\"\
    ,\"node\":\"060708090a0b0c0d0e0f101112131415161718191a1b1c1d1e1f202122232425\"}";
