//! A receipt and a key that a program in Python made which knows RFC 8554 and the format alone
//! (`examples/receipt/make.py`), whole and with values changed.

use crate::texts;
use gl_base::TxId;
use gl_entry::Digest;
use gl_hss::HssFault;
use gl_receipt::{ReceiptFault, read_receipt, verify, write_receipt};
use hex::FromHex;
use std::alloc::{AllocError, Global};
use std::test::*;
use t_checks::same;

mod made;
mod mem_ledger;

// The service's key, of two levels.
const IDENTITY: &str = "\
    000000020000000500000004c00d2e39cbe697efbbf49e528e1da22e3c8d981478775288251eae18295c29a50a6\
    c0425d60a46a45eccedd059ce1460";

// The receipt of the transaction 2.3. Its entry is the third of five.
const RECEIPT: &str = "\
    {\"leaf_components\":{\"claims_digest\":\"433f2f37a40aa0beaeaa405b0f47f9e77b48b495464f59837\
    c9569a9a7c2321f\",\"commit_evidence\":\"ce:2.3:ff50704a693277c84c5c8e3447b55a39e7885fd0e81a\
    586a67c9bc9236877f6e\",\"write_set_digest\":\"fa8242e99f48966ca514092b4233b446851f42b57ad50\
    31bf133e1dd76787f3e\"},\"proof\":[{\"right\":\"c29b643d3d03ef61ef32bcd64378032d1704d0f094b3\
    d1f628d2bfa807f55467\"},{\"left\":\"3d9530a387e385231b3eb624ce2aaf54026249205527d512760d3a7\
    ded4af751\"},{\"right\":\"f128f6814df9116f084031a32aee07386b34e6fe9cc884f94f5dd3dbf9748108\
    \"}],\"signature\":\"000000010000000300000004c6034cf448f8ade9c0297df95bf46b1231854511027883\
    74bcde2067ce8a509600c972d78c4a1f3fa0f1dbba2aa05cddfad861f6c96db80cc5de463658351a097f8484dbf\
    4d46b1c5e20a7f0f662dc5d7c6eb8ad7e484b05efe4c2dd7b2f7e449bbeb71d6d08f1ac8d7da242ad28bcefd400\
    ab6a1e618fd744906826b9f409bb485d3b3083ad38eee4cc233442b0347ecdbc35f43cf08602d5a067d323b8e48\
    d6356f3b396515b7dc17b18a7d0e46390c4fcf825a1329986b483629021928242e80a471613a4730556bd9b1450\
    ded374bec8c5487f4404c350c29a9c9145801c3d611c016bad9fe9be1b1051bc87fdfc0bb36b26c4ec6a2cf14f2\
    a4eb0d681e0319a680e21bb227b17620ea9a6ec5fb3e5054befd5efa660796c83f5ef2ec7791e927cfd0efbbad2\
    bac86f3788e9ab6796e0b45fd7ad5b2c200d68daedfefbc036981c935f12ea1035063de9b3ee94ff18c5de73107\
    cf4065cb1446cf29c65ce2170a5c9e0ccc5733cc52d1a0f3456fcc6b9696676cac2ab0f5816ff36d5817428737f\
    79ab64ce94dd7b08af2b052fb2a16bc1fb20760c8b8184e8b9340cb0470f08744fbfb20f0f0fd4556113261b6a1\
    7f186ad6092c9e4af2b162d34abb8f3cb042d71bd3c9e254e3f7d22b587dcfddd057e36362c99c2c5ac97ffd69a\
    815236fa58a3497a440c694296cc97c1fcb45f433c4da8c331687a80cf0663fe755facb4061d5faf0b89f461311\
    b0fe6e512a102cc27f4affde6ef0273b1bb5d8505a017042a006e6d97e714f34691979088acc1b8289993098082\
    7f117a9eca10c58a858f69f8412f9411320bdb79b6bf58fcd8278d455a353b0efa8d07b8bc7a3cdb821db347a93\
    a09272e3dcd7b6dd80ff2e5c7f59170fa0a56841698a65304399502e1cd5013422eca6237d172912abc50f89eb4\
    147681851068549b726c1fc4b3bf4977ebdedd5e193ce23871e84c946877f475a9363144f42408fb235d1d77025\
    0fc495b1d38393cce7e330249844b0965ac840ea6ad4bf98404a8523e8bf1a04eb4f893a2adaf6395002f1c714b\
    75aa2f845de9415b95d5613a4162bc0792a805bc3f0546b14b6149f2b66b004e2f1180028a5fbb8cfa1b8fa8253\
    d533967cc6bda6b6bb5989211416e13f7a6977d488e512fa2657097d6caa4400b62cdf7f1b2a5b2d9aae5940aee\
    5764929eb9447c532b362f10c74065a3e0fe5b25c5eb658e6ad491ba23a4edfa2b95d6952ec92405fc9c0e93584\
    f57a039446f5e045e10e2dc9868bb1c03f268c65073169fb8e595e639917b9f5cc999516d0d6bb00ddba9f396fd\
    4feaefbb4312163341724af3286573e1a8d321d61eba36b6d1b31ce53df60ed7b46cb6fd979fb92fc0756d89d76\
    46e698fb18b9ae92ef1405c52a84710e97f658dddfdfc071e9d5f227e5cb66ddb915e6ecb00e0250f79b39a16b9\
    aa4aa4bc3b697d78831f6cd6e508db0d7258935d1b08c3830470562cb891a2a9d988fe006fe14550cba3d02afdb\
    68a20dda930d35c0274b1129288c094be357e1e37cd1bc60c558846fbe5367d14d7464d2a28dd3c35c7748ce28a\
    f5932f629f0000000530fa774af112491e85993444e5d8cbac565f8b0b6554932d5062d20de653cda35b7e0c829\
    70a5b83c01f2d47bc797c5aef67d3c5e06823837a285718f52b6de1d1a4f8fbd7666a87edb06025eaa0474b4a87\
    bf5c6fb0876445ad65a8aab75e4cf240d15c550b8f15f6785937876a8800b9878e849856780d9fe9d88b23de68b\
    1d7d67cbf6a923666ee9e132136acd327b5ece05333522badae61412a8464a3f00000000500000004216c59c270\
    5aa4adb4c8955be10005c1a7a24839771255cc569a756587190a352a436906ab9bddd2195bd273aab4fc3f00000\
    007000000044f50ad82781989e514932f4cc9afaff533c08908f8094a50eb300be9bb0dd0996f7c433c972d4825\
    886985d26b256740718154a484ddb75aa85844e99df0de7ddfbbb6271559e6e7820bb91c36003996b91e30e80fa\
    ab8b6b0b334f22534edc5d5a7c7f6bbf29abc8eb3b2936b842045890a6db5077cb320173b6e1f52f95f2549370e\
    e670be9780c51f4bd433497cb8707c08cbcfcf731190b39226bdb2589367748c2e3ab03686be5d41b9f5097db98\
    cf0a9b115f9e2af251394fb9aa49df22aaba512e58e1fc0ab54ddd988c7b2687134971d5e02add161d162e2fa8e\
    e9b3c98ff6188254920af33c0a0ccd5258ad69411da514e3b6d37a690ffe088d5e73038a427b1bd4d01d3fa0f2e\
    d0ee245a41a73ae6ec152aeca196dfd653892325c2899569dc43c891b7d66cf40146e6de163a462b53794125934\
    2d17831ea8fd31b5241cf491a06fbbb500b63520f3785126e550449925220d1b5f20b0565dbc0caf21a682e7ded\
    8bf6dbe935bd4799618a7168acc4543ce271e761eb59a1e751af124f05fff05c2d2c1940b919f528c5217d7e58b\
    fc0605b6348f746a24d7818934d5305cd9413477b5841bca2f3ab1fcfd6655c24debc7fbd56100b0c57561f4c75\
    9ab002bc2e6f4efe9218c5cc45597329fa5d668d37b92b1c7282a9e2a622bcc48b95220e696838f2381c84e3074\
    09acbf515baa8de7fa4b74c9ebb074cf122cec94d6ed7fea90a01df448dbb5085bc0412789b1a4a728e618f5baa\
    fd8a7b11c192ff8ed9ffe5e9a4a7972445da2342a6dd1d299c46f8375772b2969a8a6a0a3dcbac9f573268524d5\
    9ca3399abf8c45e2e74fc65cc8b4908370708e6eff55c6d631acb1a8bac58e0e06fa48e52ff711957cf386798bf\
    0a2abd6d98bf3c41981be92de34a17714056e3af491baccaeadf81d1fb6ade57f762078f60adeb911e2f51675d9\
    f5f7d4e25af20ad0750b8160e14aa1a1b6bffeec94f4c7005b77385061157e5cf5b53e6d9a306da7ffbd7f36ba5\
    d90d5efe09c509725585f5da07189bb651114182e60f1a9745acda29e3ee55677f0d6c0de624f657f5715a7dd10\
    63d0a484356e0a0e4caf1c91c1ac49b8d19998d9861a70b9454e253dfd022ca608795d059954b40e759218954b6\
    b9cc01fe17c2ea89f328d3193fea7824c43a28b214313cecc9cc16b6c01f6e7831dd2ac1f52aba217b1a0243f39\
    200f906722b4fb0843642de140b2ba3d5c9a9ff91b2b118da4c5b223559a928d79d7acb2e63008e1dfcebe638a3\
    e481ef183376267dfbba34cc44354f105c3d00941dd07e42db3fa0e7dd7a5d534e29874749dfb9d7079f1c878ec\
    c9b8fcd6b1e3305a3db31de43bc8b7003ecfcb248b73f50d50399f5750e00236242c52c703a0f55e1f99be5fda2\
    172d03edd08d54b1a42da0ee4f07f64931673037aae7919499164d7f514df5b7cb1798b2e27230f1a43d65a4cdc\
    434c6bc38cde512c437a286c415cd7ee0248a52ffc236b69f0a2a1b606826b7d77b4ebdf40a904fadb768573a70\
    faf37ec4cdd36d58645c07317a5bc0c1eda310e5a6633483816dc6827e19f6e1c8b000000059cb851236c840dde\
    e75132be4fa7335439afb6e1cf5201c7768cbc0b995a283059fdd8b7722ffa5cd11daf90c3b266a73c74a91f3b9\
    5ce12b17286922d3d93e8656b0149257708be44eae97a6269fc4ddd556958e37e0aff373ba0b49a0b09ccc5d7b9\
    04ab39254de54baff8f880d9dc220d704facbbe156971398a52f84fb35210a68ae0d0cfaf6ac876bda0945f1aa0\
    ee8e9d3ff0ebf3c6345211aeda2ccb0\",\"signed\":{\"commit\":2,\"seqno\":6,\"view\":2}}";

// The receipt's text, which no other function holds.
fn receipt_text() -> &'static str {
    RECEIPT
}

fn identity(rt: &HostRuntime) -> Result<[u8; 60], Fail> {
    Ok(<[u8; 60] as FromHex>::from_hex(IDENTITY)?)
}

// What is read and verified of a text under the service's key.
fn report(rt: &HostRuntime, text: &[u8]) -> Result<Result<TxId, ReceiptFault>, Fail> {
    let receipt = read_receipt(rt.alloc(), text)?;
    Ok(verify(&identity(rt)?, &receipt))
}

// The receipt's text with the first such piece changed.
fn changed(alloc: Global, piece: &str, by: &str) -> Result<String, AllocError> {
    texts::changed(alloc, receipt_text(), piece, by)
}

#[test]
fn verifies(rt: HostRuntime) -> Result<(), Fail> {
    let id = TxId { view: 2, seqno: 3 };
    same!(report(&rt, receipt_text().as_bytes())?, Ok(id));
    Ok(())
}

#[test]
fn writes_what_it_read(rt: HostRuntime) -> Result<(), Fail> {
    let want = receipt_text().as_bytes();
    let receipt = read_receipt(rt.alloc(), want)?;
    let text = write_receipt(rt.alloc(), &receipt)?;
    same!(text.as_slice(), want);
    Ok(())
}

// What is answered of the receipt with a piece changed.
fn reported_changed(
    rt: &HostRuntime,
    piece: &str,
    by: &str,
) -> Result<Result<TxId, ReceiptFault>, Fail> {
    report(rt, changed(rt.alloc(), piece, by)?.as_bytes())
}

// The signature leads to this root, and not to that of the node's key.
fn leads_to(got: &str) -> Result<Result<TxId, ReceiptFault>, Fail> {
    let want = "a7a24839771255cc569a756587190a352a436906ab9bddd2195bd273aab4fc3f";
    Ok(Err(ReceiptFault::Hss(HssFault::Root {
        want: <Digest as FromHex>::from_hex(want)?,
        got: <Digest as FromHex>::from_hex(got)?,
    })))
}

// The roots are those that `examples/receipt/verify.py` finds.
#[test]
fn finds_another_root(rt: HostRuntime) -> Result<(), Fail> {
    let rows = [
        // One bit of a sibling.
        (
            "\"c29b",
            "\"c39b",
            "a4d0c1fefc4089a42505ebaa758601f198e0684fc4ec88398ecf40a7055d6986",
        ),
        // The side of a sibling.
        (
            "\"left\"",
            "\"right\"",
            "b28c6ffec07749a34b0f1c8c6d7fd772bb21e023d2fe102e573789b7f034eed5",
        ),
        (
            "\"fa8242",
            "\"fb8242",
            "6e1507a46f5e143199655fbdf94420e86bd36455d33d19ac3480b8b33d866c2b",
        ),
        (
            "\"commit\":2",
            "\"commit\":3",
            "a4a940d0c052b4168645e897552103c791b8c9c3acf8a7f0f8499052bb4210b7",
        ),
        (
            "\"seqno\":6",
            "\"seqno\":7",
            "c839246bb19714f9be743a23722b4921cbb1fc95457dbc276a84f4a26a47cbe4",
        ),
        (
            "\"view\":2",
            "\"view\":3",
            "43aae9008da37d8a1511831ea80aa82f99754fb8fb26512bbc3558f20d70aad3",
        ),
    ];
    for (piece, by, got) in rows {
        same!(reported_changed(&rt, piece, by)?, leads_to(got)?, piece);
    }
    Ok(())
}

#[test]
fn reports_what_is_wrong(rt: HostRuntime) -> Result<(), Fail> {
    let evidence = Err(ReceiptFault::Evidence);
    let longer = HssFault::Length {
        want: 2644,
        got: 2645,
    };
    let rows = [
        ("ce:2.3", "ce:2.4", evidence),
        ("ce:2.3", "ce:02.3", evidence),
        ("ce:2.3:", "ce:2.3", evidence),
        (":ff5070", ":FF5070", evidence),
        (
            "\",\"signed",
            "00\",\"signed",
            Err(ReceiptFault::Hss(longer)),
        ),
    ];
    for (piece, by, want) in rows {
        same!(reported_changed(&rt, piece, by)?, want, by);
    }
    let mut other = identity(&rt)?;
    other[59] ^= 1;
    let receipt = read_receipt(rt.alloc(), receipt_text().as_bytes())?;
    same!(verify(&other, &receipt), evidence);
    Ok(())
}

// Why a text is no receipt, and the path.
fn refused(alloc: Global, text: &[u8]) -> Result<String, AllocError> {
    texts::report(alloc, read_receipt(alloc, text))
}

#[test]
fn reports_which_value_differs(rt: HostRuntime) -> Result<(), Fail> {
    let rows = [
        ("{", "", "no JSON"),
        ("{\"leaf", "[{\"leaf", "no JSON"),
        ("\"proof\":[", "\"proof\":[[], ", "shape /proof/0"),
        ("\"proof\":[", "\"proof\":3,\"more\":[", "shape "),
        ("\"proof\":[", "\"prove\":[", "shape "),
        (
            "\"claims_digest\":\"",
            "\"claims_digest\":\"0",
            "hex /leaf_components/claims_digest",
        ),
        ("433f2f", "433F2f", "hex /leaf_components/claims_digest"),
        ("\"claims_digest\"", "\"claims\"", "shape /leaf_components"),
        ("\"ce:", "null,\"x\":\"", "shape /leaf_components"),
        (
            "\"ce:2.3:",
            "7,\"write_set_digest\":\"",
            "shape /leaf_components/commit_evidence",
        ),
        ("{\"right\"", "{\"Right\"", "shape /proof/0"),
        ("{\"left\"", "{\"right\":1,\"left\"", "shape /proof/1"),
        ("{\"left\":\"", "{\"left\":\"00", "hex /proof/1/left"),
        (
            "{\"left\":",
            "{\"left\":5},{\"left\":",
            "shape /proof/1/left",
        ),
        ("\",\"signed", "0\",\"signed", "hex /signature"),
        ("\"signature\":\"00", "\"signature\":\"0G", "hex /signature"),
        ("\"commit\":2", "\"commit\":2.0", "shape /signed/commit"),
        ("\"seqno\":6", "\"seqno\":-6", "shape /signed/seqno"),
        ("\"view\":2", "\"view\":4294967296", "shape /signed/view"),
        ("\"view\":2", "\"view\":2,\"x\":1", "shape /signed"),
        ("\"view\":2", "\"view\":1,\"view\":2", "read"),
    ];
    for (piece, by, want) in rows {
        let text = changed(rt.alloc(), piece, by)?;
        let answer = refused(rt.alloc(), text.as_bytes())?;
        same!(answer.as_str(), want, (piece, by));
    }
    same!(refused(rt.alloc(), b"null")?.as_str(), "shape ");
    same!(refused(rt.alloc(), b"\"\xff\"")?.as_str(), "no JSON");
    Ok(())
}

#[test]
fn takes_a_number_for_no_proof(rt: HostRuntime) -> Result<(), Fail> {
    let text = b"{\"leaf_components\":{\"claims_digest\":\"\",\"commit_evidence\":\"\",\
        \"write_set_digest\":\"\"},\"proof\":3,\"signature\":\"\",\"signed\":null}";
    let first = refused(rt.alloc(), text)?;
    same!(first.as_str(), "hex /leaf_components/claims_digest");
    let (prefix, rest) = receipt_text().split_once("[").unwrap_or(("", ""));
    let (_, rest) = rest.split_once("]").unwrap_or(("", ""));
    let text = format!(in rt.alloc(); "{prefix}3{rest}")?;
    same!(
        refused(rt.alloc(), text.as_bytes())?.as_str(),
        "shape /proof"
    );
    Ok(())
}
