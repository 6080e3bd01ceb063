//! How program files are split.
use bw_cert::split_file;
use std::test::Fail;

#[test]
fn files_are_cut(rt: HostRuntime) -> Result<(), Fail> {
    for (file, program, certificate, first_line) in [
        ("", "", "", 1),
        ("a", "a", "", 2),
        ("a\n", "a\n", "", 2),
        ("a\nb", "a\nb", "", 3),
        ("certificate", "", "", 2),
        ("CERTIFICATE\n", "", "", 2),
        (
            "a\n Certificate\t\r\nb\nCERTIFICATE\n",
            "a\n",
            "b\nCERTIFICATE\n",
            3,
        ),
        (
            "CERTIFICATES\n#CERTIFICATE\nCERTIFICATE x\n\nCERTIFICATE\n\n",
            "CERTIFICATES\n#CERTIFICATE\nCERTIFICATE x\n\n",
            "\n",
            6,
        ),
    ] {
        let parts = split_file(file.as_bytes());
        assert_eq!(rt; parts.program, program.as_bytes(), "{file}");
        assert_eq!(rt; parts.certificate, certificate.as_bytes(), "{file}");
        assert_eq!(rt; parts.first_line, first_line, "{file}");
    }
    Ok(())
}
