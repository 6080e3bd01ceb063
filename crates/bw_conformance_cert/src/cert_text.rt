//! Certificates that are read and printed. `cases/certificate_lines.md` has what is rejected, and
//! where.
use bw_cert::Certificate;
use bw_model::Schema;
use std::test::Fail;

#[test]
fn canonical_texts(rt: HostRuntime) -> Result<(), Fail> {
    let alloc = rt.alloc();
    let schema = Schema::parse(
        alloc,
        b"TABLE t\nCOLUMN a 0 255 NOT NULL\nCOLUMN bB -10 10\n",
    )?;
    for (text, want) in [
        ("end 007", "END 7\n"),
        (
            "# nothing\nnode 02 1\t1  0\r\n\nEND 0",
            "NODE 2 1 1 0\nEND 0\n",
        ),
        (
            "chain 0 lt BB 0 0 0 0 -\nchain 1 EQ2 A Bb 1 2 00\nEnd 0",
            "CHAIN 0 LT bB 0 0 0 0 -\nCHAIN 1 EQ2 a bB 1 2 0\nEND 0\n",
        ),
        (
            "row 1 or 1 2 3 v 4 5 6\nrow 2 xor 1 2 3 s\nend 0",
            "ROW 1 OR 1 2 3 V 4 5 6\nROW 2 XOR 1 2 3 S\nEND 0\n",
        ),
        (
            "cmp - - 1 2\ncmp2 3 - 4 5 6 7\nfixed\nnulltest 8\nand 1 2\nor 1 2\nnot\nis 1\nis 1 2\nend 0",
            "CMP - - 1 2\nCMP2 3 - 4 5 6 7\nFIXED\nNULLTEST 8\nAND 1 2\nOR 1 2\nNOT\nIS 1\nIS 1 2\nEND 0\n",
        ),
        (
            "load 1\nfill\nop 2\nbyte 3\nbyte -\nskip\njoin 4\nkeep R007 1 2\nkeep r08 1 2 3 4 5 6\nend 0",
            "LOAD 1\nFILL\nOP 2\nBYTE 3\nBYTE -\nSKIP\nJOIN 4\nKEEP r7 1 2\nKEEP r8 1 2 3 4 5 6\nEND 0\n",
        ),
    ] {
        let certificate = Certificate::parse(alloc, 1, text.as_bytes())?;
        assert!(rt; certificate.has_columns(&schema), "of {text}");
        let printed = certificate.print(alloc, &schema)?;
        assert_eq!(rt; printed.as_slice(), want.as_bytes(), "of {text}");
    }
    Ok(())
}
