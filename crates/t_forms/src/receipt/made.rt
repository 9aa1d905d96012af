//! A ledger of eight entries that a program in Python made which knows the formats and RFC 8554
//! alone, and the receipt of its third entry by that program. The sixth entry has a valid
//! signature. Here the service is taken as recovered at the seventh, from which on it has another
//! key.

use super::identity;
use super::mem_ledger::MemLedger;
use gl_base::{OrNoMemory, Status, TxId};
use gl_receipt::{MakeFault, Receipt, make, verify, write_receipt};
use std::alloc::Global;
use std::test::*;
use t_checks::same;

// The frames of the entries before the sixth.
const FIRST: [&str; 5] = [
    "\
        010050000000000002000000010000000000000001010000000101000000107075626c69633a6363662e676f76\
        2e610100620101000000020000000000000000000000000000000000000000000000000000000000000000",
    "\
        0100820000000000020000000200000000000000034d000000c05562cd4e2b682f16e9bf36d8d03f5d99d2c83c\
        e74ed40cc46022e8037dc946020000000000000083eee9b19e79caf03fc4b6898cbae5bd224186e8b8dcf74766\
        57d5691859f1db0100000007000000000000000000000000000000000000000000000000000000000000000000\
        000000",
    "\
        01005600000000000200000003000000000000000202000000020302000000087075626c69633a740100610101\
        00000001087075626c69633a7401006200433f2f37a40aa0beaeaa405b0f47f9e77b48b495464f59837c9569a9\
        a7c2321f",
    "\
        010036000000000002000000040000000000000002010000000400000000e07603537a2946ce8d211cac9d99f5\
        9837c221d022b901a07110ccefc99186bb",
    "\
        010055000000000002000000050000000000000004200000004fd24382e6a60f42a9b4a85f8135fd29c109de63\
        d8c604138b6817cdec77d3c0000000000000000000000000000000000000000000000000000000000000000000\
        000000",
];

// The frame of the sixth entry, up to its signature.
const SIXTH: &str = "\
    0100d50a0000000002000000060000000000000003a00a0000c05562cd4e2b682f16e9bf36d8d03f5d99d2c83c\
    e74ed40cc46022e8037dc946020000000000000077f10fa260f2ea9a2f083d8406bc6101c2286627a4f4a09062\
    2cb47cf6d3bb0e540a0000";

const SIGNATURE: &str = "\
    000000010000000300000004c6034cf448f8ade9c0297df95bf46b123185451102788374bcde2067ce8a509600\
    c972d78c4a1f3fa0f1dbba2aa05cddfad861f6c96db80cc5de463658351a097f8484dbf4d46b1c5e20a7f0f662\
    dc5d7c6eb8ad7e484b05efe4c2dd7b2f7e449bbeb71d6d08f1ac8d7da242ad28bcefd400ab6a1e618fd7449068\
    26b9f409bb485d3b3083ad38eee4cc233442b0347ecdbc35f43cf08602d5a067d323b8e48d6356f3b396515b7d\
    c17b18a7d0e46390c4fcf825a1329986b483629021928242e80a471613a4730556bd9b1450ded374bec8c5487f\
    4404c350c29a9c9145801c3d611c016bad9fe9be1b1051bc87fdfc0bb36b26c4ec6a2cf14f2a4eb0d681e0319a\
    680e21bb227b17620ea9a6ec5fb3e5054befd5efa660796c83f5ef2ec7791e927cfd0efbbad2bac86f3788e9ab\
    6796e0b45fd7ad5b2c200d68daedfefbc036981c935f12ea1035063de9b3ee94ff18c5de73107cf4065cb1446c\
    f29c65ce2170a5c9e0ccc5733cc52d1a0f3456fcc6b9696676cac2ab0f5816ff36d5817428737f79ab64ce94dd\
    7b08af2b052fb2a16bc1fb20760c8b8184e8b9340cb0470f08744fbfb20f0f0fd4556113261b6a17f186ad6092\
    c9e4af2b162d34abb8f3cb042d71bd3c9e254e3f7d22b587dcfddd057e36362c99c2c5ac97ffd69a815236fa58\
    a3497a440c694296cc97c1fcb45f433c4da8c331687a80cf0663fe755facb4061d5faf0b89f461311b0fe6e512\
    a102cc27f4affde6ef0273b1bb5d8505a017042a006e6d97e714f34691979088acc1b82899930980827f117a9e\
    ca10c58a858f69f8412f9411320bdb79b6bf58fcd8278d455a353b0efa8d07b8bc7a3cdb821db347a93a09272e\
    3dcd7b6dd80ff2e5c7f59170fa0a56841698a65304399502e1cd5013422eca6237d172912abc50f89eb4147681\
    851068549b726c1fc4b3bf4977ebdedd5e193ce23871e84c946877f475a9363144f42408fb235d1d770250fc49\
    5b1d38393cce7e330249844b0965ac840ea6ad4bf98404a8523e8bf1a04eb4f893a2adaf6395002f1c714b75aa\
    2f845de9415b95d5613a4162bc0792a805bc3f0546b14b6149f2b66b004e2f1180028a5fbb8cfa1b8fa8253d53\
    3967cc6bda6b6bb5989211416e13f7a6977d488e512fa2657097d6caa4400b62cdf7f1b2a5b2d9aae5940aee57\
    64929eb9447c532b362f10c74065a3e0fe5b25c5eb658e6ad491ba23a4edfa2b95d6952ec92405fc9c0e93584f\
    57a039446f5e045e10e2dc9868bb1c03f268c65073169fb8e595e639917b9f5cc999516d0d6bb00ddba9f396fd\
    4feaefbb4312163341724af3286573e1a8d321d61eba36b6d1b31ce53df60ed7b46cb6fd979fb92fc0756d89d7\
    646e698fb18b9ae92ef1405c52a84710e97f658dddfdfc071e9d5f227e5cb66ddb915e6ecb00e0250f79b39a16\
    b9aa4aa4bc3b697d78831f6cd6e508db0d7258935d1b08c3830470562cb891a2a9d988fe006fe14550cba3d02a\
    fdb68a20dda930d35c0274b1129288c094be357e1e37cd1bc60c558846fbe5367d14d7464d2a28dd3c35c7748c\
    e28af5932f629f0000000530fa774af112491e85993444e5d8cbac565f8b0b6554932d5062d20de653cda35b7e\
    0c82970a5b83c01f2d47bc797c5aef67d3c5e06823837a285718f52b6de1d1a4f8fbd7666a87edb06025eaa047\
    4b4a87bf5c6fb0876445ad65a8aab75e4cf240d15c550b8f15f6785937876a8800b9878e849856780d9fe9d88b\
    23de68b1d7d67cbf6a923666ee9e132136acd327b5ece05333522badae61412a8464a3f0000000050000000421\
    6c59c2705aa4adb4c8955be10005c1a7a24839771255cc569a756587190a352a436906ab9bddd2195bd273aab4\
    fc3f00000007000000044f50ad82781989e514932f4cc9afaff533c08908f8094a50eb300be9bb0dd099555888\
    9bbfe49f8a91fbb61789a5df3a84d411e4520f8e4e202c2d83ea1e6de763a644abe285e565ba2cc225ba2ee76c\
    c945c8335e7471ec71c1462a6172138dafa9807a5c6e81f58585ce46cab717d8353b8bba55e1a09f470f27ecad\
    3e491d9d73a75b265398a1a3dfb5f65465a751cd0484f788101715bdead9ec3bffa5ca623533e4bd4c4cc667e5\
    89eaa1dffb6c9efc32231231b2ccdce5af4a714e3c9c8b9c58e5c38004a779b92a0c0d50540ad7fbb9806f41d1\
    2d27146774c69591e20bbf8cba04cde66802674d90c172103322dcdbc94d3f7b80837a5805bb2c4206bbb116aa\
    86b8621841c6a307d3fbe47a7d4e9efb10eb20452d52405f55260f86169bdd9e15461d58945206ff7c5ebd0fbb\
    dde45877f89eea90ba3111c8638507d558333275df07d706103415cbaf0a7b9ee7111970f69b928a07ebe92a01\
    d26f7b930630be985822a2927c1f46e6d6d486e0debddc051d8aa4c66e0c44fdedde295533304aa532ecfbe13a\
    5b7615fc551149023a5ba09220633f40d81e4ec043d20267ef83b1af326a886da5404db329af8a92085f5e0da9\
    c1cbb9581e3ac34754aa03c4e2af08936fd70e489b37222065fbea4a4604228015e59bb2a1031f1618e24b0c39\
    29871a1e585a6edbf13fd7b322e49149818b200bfc2398ed97393c6a6bb238867a54768b0c5a10e9349112f4bc\
    8323ef2abe2cb24939f1e7eafa618e2381049cdde4b430c1219bb10115bef56840bba57910e7447a5fba0e1b17\
    41400f4075d8b1c627b4aa4ca1a782d11f76cc02e5a24f62d1f65d947a8145eb515fb7d73885e763558181751b\
    10a538692aa23f8526408a57f9731bc7f0bd468981be92de34a17714056e3af491baccaeadf81d1fb6ade57f76\
    2078f60adeb911d29f36c4728c47194bc91021a30a9b75b3d1eaf19fe4947b0e3e669d2116e9b83ea65c3695d9\
    9f5f3ef4e0008463968685c2243c19bf76898000e3da89857b9d1d6d933cdeb5054cfde66465d7ab329c099ad0\
    43b9ee11b47072e5c2f84c3083db3d408f9b7f798e6cdc717e574bc69bb249613bb55e4339bf4d8858f09e5689\
    02604c58c4b0173a7eb5758e1e04b0e9cdebe42799cdb65b32eb7e6df6de7807cc0b42fbe325d4c855ee0eb222\
    1e351936d1af483df595d748b844029f009b5df74ca926b9bd8c3a857220bb4bfaf713ecc30b1229a48d1bc3b9\
    631beffbd60ca85bc161d0fefacf8a56a37b44ee7f58cbe7c9fc3a94f39aa663608328b0ba686bcfbf4abf112e\
    a778fd5d561a3e78446b999cd3087c03c8e038fc2c09e22585338e42d1b764d6ef00acd42a5cdd7ce376c1db15\
    7db325072dd16855de011b2c20b3665e4dd1d7f54ee6e1afe69e6a297f0d4d6ba928da00c1060a23f2ecf5f1f8\
    9597290f3e0a5958289cc5b40e34fd1f67907d846d77773af4bb4b14f681020c74ad1a54ba33815d19b7d228c1\
    0a6bd31236e87066a6bd13de2a5149d34374989c08541902d7a901fec8aaf73c2eb4fcb2eb0ebd153c696026ee\
    c921385af5000000059cb851236c840ddee75132be4fa7335439afb6e1cf5201c7768cbc0b995a283059fdd8b7\
    722ffa5cd11daf90c3b266a73c74a91f3b95ce12b17286922d3d93e8656b0149257708be44eae97a6269fc4ddd\
    556958e37e0aff373ba0b49a0b09ccc5d7b904ab39254de54baff8f880d9dc220d704facbbe156971398a52f84\
    fb35210a68ae0d0cfaf6ac876bda0945f1aa0ee8e9d3ff0ebf3c6345211aeda2ccb0";

// What stands after it there.
const ZEROS: &str = "\
    000000000000000000000000000000000000000000000000000000000000000000000000";

// The frames of the entries after it.
const LAST: [&str; 2] = [
    "\
        0100360000000000030000000700000000000000020100000005000000005b77685668c18b178c138484e095ba\
        172191fa00e6714bf99b881b35e0c58626",
    "\
        0100820000000000030000000800000000000000034d000000c05562cd4e2b682f16e9bf36d8d03f5d99d2c83c\
        e74ed40cc46022e8037dc946060000000000000065add3631e83eaf8f3b6c36e0b06521aa104d72edb84e761b4\
        b6b4d98598b36d0100000007000000000000000000000000000000000000000000000000000000000000000000\
        000000",
];

// The receipt of the third, up to its signature, and what stands after that.
const RECEIPT: &str = "\
    {\"leaf_components\":{\"claims_digest\":\"433f2f37a40aa0beaeaa405b0f47f9e77b48b495464f5983\
    7c9569a9a7c2321f\",\"commit_evidence\":\"ce:2.3:ff50704a693277c84c5c8e3447b55a39e7885fd0e8\
    1a586a67c9bc9236877f6e\",\"write_set_digest\":\"aa3a56338d4deab248d16f528c5bbdd2298411cf58\
    582c6b915434c367679f93\"},\"proof\":[{\"right\":\"b5f7fe624f66ec0d1a9e575c178c341e4be58a04\
    5ca17339d9f9523a2cd74b6b\"},{\"left\":\"7c9dc300fe146d4f7a3541023a1e05ed9bd988a5b7f91ed08d\
    c105de8f4fdfa1\"},{\"right\":\"eb08644f9701dd5152f3ef14abf641c31a1aed4bc671cfb259e300b4b67\
    a5625\"}],\"signature\":\"";

const SIGNED: &str = "\
    \",\"signed\":{\"commit\":2,\"seqno\":6,\"view\":2}}";

// The sixth entry's signature, which no other function holds.
fn signature() -> &'static str {
    SIGNATURE
}

fn push(ledger: &mut MemLedger, alloc: Global, digits: &str) -> Result<(), Fail> {
    ledger.push(&hex::decode(alloc, digits)?)
}

// The ledger, committed up to a seqno.
fn ledger(rt: &HostRuntime, commit: u64) -> Result<MemLedger, Fail> {
    let alloc = rt.alloc();
    let mut ledger = MemLedger::new(alloc, identity(rt)?, commit);
    ledger.recover(7, [0; 60])?;
    for digits in FIRST {
        push(&mut ledger, alloc, digits)?;
    }
    let signature = signature();
    let sixth = format!(in alloc; "{SIXTH}{signature}{ZEROS}")?;
    push(&mut ledger, alloc, sixth.as_str())?;
    for digits in LAST {
        push(&mut ledger, alloc, digits)?;
    }
    Ok(ledger)
}

#[test]
fn makes_the_receipt(rt: HostRuntime) -> Result<(), Fail> {
    let id = TxId { view: 2, seqno: 3 };
    let receipt = make(rt.alloc(), &ledger(&rt, 6)?, id)?;
    same!(verify(&identity(&rt)?, &receipt), Ok(id));
    let text = write_receipt(rt.alloc(), &receipt)?;
    let signature = signature();
    let want = format!(in rt.alloc(); "{RECEIPT}{signature}{SIGNED}")?;
    same!(text.as_slice(), want.as_bytes());
    Ok(())
}

// Why there is no receipt.
fn fault(made: Result<Receipt, OrNoMemory<MakeFault>>) -> Result<Option<MakeFault>, Fail> {
    match made {
        Ok(_) => Ok(None),
        Err(OrNoMemory::Fault(fault)) => Ok(Some(fault)),
        Err(OrNoMemory::NoMemory) => Err(Fail::from("out of memory")),
    }
}

#[test]
fn refuses_what_is_not_committed(rt: HostRuntime) -> Result<(), Fail> {
    let rows = [
        (6, 3, 7, Status::Pending),
        (6, 3, 8, Status::Pending),
        (6, 2, 7, Status::Unknown),
        (6, 3, 3, Status::Invalid),
        (6, 2, 0, Status::Invalid),
        (6, 1, 9, Status::Invalid),
        (2, 2, 3, Status::Pending),
        (0, 2, 1, Status::Pending),
    ];
    for (commit, view, seqno, status) in rows {
        let made = make(rt.alloc(), &ledger(&rt, commit)?, TxId { view, seqno });
        same!(fault(made)?, Some(MakeFault::NotCommitted { status }));
    }
    Ok(())
}

// The ledger without its entries up to the fourth.
fn ledger_above_four(rt: &HostRuntime, commit: u64) -> Result<MemLedger, Fail> {
    let mut ledger = ledger(rt, commit)?;
    ledger.let_go(4);
    Ok(ledger)
}

#[test]
fn tells_the_base(rt: HostRuntime) -> Result<(), Fail> {
    // Where the last is committed, and where no signature above is.
    for commit in [8, 5] {
        for seqno in 1..5 {
            let id = TxId { view: 2, seqno };
            let made = make(rt.alloc(), &ledger_above_four(&rt, commit)?, id);
            same!(fault(made)?, Some(MakeFault::BelowBase { base: 4 }), seqno);
        }
    }
    Ok(())
}

#[test]
fn tells_the_status_before_the_base(rt: HostRuntime) -> Result<(), Fail> {
    let rows = [
        (6, 3, 3, Status::Invalid),
        (6, 2, 0, Status::Invalid),
        (6, 3, 7, Status::Pending),
    ];
    for (commit, view, seqno, status) in rows {
        let id = TxId { view, seqno };
        let made = make(rt.alloc(), &ledger_above_four(&rt, commit)?, id);
        same!(fault(made)?, Some(MakeFault::NotCommitted { status }));
    }
    Ok(())
}

#[test]
fn makes_the_same_receipts_above_a_base(rt: HostRuntime) -> Result<(), Fail> {
    let id = TxId { view: 2, seqno: 5 };
    let whole = make(rt.alloc(), &ledger(&rt, 6)?, id)?;
    let above = make(rt.alloc(), &ledger_above_four(&rt, 6)?, id)?;
    let want = write_receipt(rt.alloc(), &whole)?;
    let text = write_receipt(rt.alloc(), &above)?;
    same!(text.as_slice(), want.as_slice());
    let made = make(
        rt.alloc(),
        &ledger_above_four(&rt, 6)?,
        TxId { view: 2, seqno: 6 },
    );
    same!(
        fault(made)?,
        Some(MakeFault::NoLaterSignature { commit: 6 })
    );
    Ok(())
}

#[test]
fn wants_a_committed_signature_above(rt: HostRuntime) -> Result<(), Fail> {
    // The first is the last signature before the recovery.
    let last = [
        (8, 2, 6),
        (6, 2, 6),
        (2, 2, 2),
        (8, 3, 8),
        (5, 2, 2),
        (5, 2, 3),
    ];
    for (commit, view, seqno) in last {
        let made = make(rt.alloc(), &ledger(&rt, commit)?, TxId { view, seqno });
        same!(fault(made)?, Some(MakeFault::NoLaterSignature { commit }));
    }
    for seqno in 1..6 {
        let made = make(rt.alloc(), &ledger(&rt, 6)?, TxId { view: 2, seqno });
        same!(fault(made)?, None, seqno);
    }
    Ok(())
}
